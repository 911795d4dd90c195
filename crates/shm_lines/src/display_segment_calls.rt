//! The spelling of segment calls.
ghost use Rattle.std.specs.Prelude.{◌≡◌};
ghost use Rattle.shm_lines.specs.Calls as spelled;

use crate::display_flags::{AccessWord, FlagsWord};
use shm_model::{Cred, Op, Request};
use shm_place::SegId;
use std::fmt;

/// A segment call that a site sends to another, as its words spell it.
#[derive(Clone, Copy)]
pub struct CallWords(pub Op);

impl fmt::Display for CallWords {
    ghost use Rattle.std.specs.Prelude.{Some};
    ghost use Rattle.std.specs.List.{join_with_byte};
    ghost use Rattle.shm_lines.specs.Calls.{call_words};

    ghost output = { λ words. Some (join_with_byte 32 (call_words words.0)) };

    #[tactic(auto, using(crate::proofs::CallTexts::before_call))]
    fn fmt<W: fmt::Write>(&self, f: &mut fmt::Formatter<W>) -> fmt::Result {
        write!(f, "{} {}", call_verb(self.0), BehindCall(self.0))
    }
}

/// A segment call, as its words spell it.
#[derive(Clone, Copy)]
pub struct RequestWords(pub Request);

impl fmt::Display for RequestWords {
    ghost use Rattle.std.specs.Prelude.{Some};
    ghost use Rattle.std.specs.List.{join_with_byte};
    ghost use Rattle.shm_lines.specs.Calls.{request_words};

    ghost output = { λ words. Some (join_with_byte 32 (request_words words.0)) };

    #[tactic(auto, using(crate::proofs::CallTexts::before_request))]
    fn fmt<W: fmt::Write>(&self, f: &mut fmt::Formatter<W>) -> fmt::Result {
        let behind = BehindRequest(self.0);
        write!(f, "{} {behind}", behind.verb())
    }
}

/// The words behind the verb of what a site is asked to begin.
#[derive(Clone, Copy)]
pub(crate) struct BehindRequest(pub(crate) Request);

impl BehindRequest {
    /// The verb before them.
    pub(crate) fn verb(&self) -> &'static str
        ensures { result.now ≡ spelled.request_verb self.now.0 }
    {
        match self.0 {
            Request::Op(op) => call_verb(op),
            Request::DetachAt(_) => "detach",
        }
    }
}

impl fmt::Display for BehindRequest {
    ghost use Rattle.std.specs.Prelude.{Some};
    ghost use Rattle.std.specs.List.{join_with_byte};
    ghost use Rattle.shm_lines.specs.Calls.{words_of_request};

    ghost output = { λ words. Some (join_with_byte 32 (words_of_request words.0)) };

    fn fmt<W: fmt::Write>(&self, f: &mut fmt::Formatter<W>) -> fmt::Result {
        match self.0 {
            Request::Op(op) => write!(f, "{}", BehindCall(op)),
            Request::DetachAt(at) => write!(f, "{at}"),
        }
    }
}

fn call_verb(op: Op) -> &'static str
    ensures { result.now ≡ spelled.call_verb op }
{
    match op {
        Op::Get { .. } => "get",
        Op::Attach { .. } => "attach",
        Op::Detach { .. } => "detach",
        Op::Remove { .. } => "remove",
        Op::Set { .. } => "set",
        Op::Stat { .. } => "stat",
    }
}

/// The words behind the verb of a segment call.
#[derive(Clone, Copy)]
struct BehindCall(Op);

impl fmt::Display for BehindCall {
    ghost use Rattle.std.specs.Prelude.{Some};
    ghost use Rattle.std.specs.List.{join_with_byte};
    ghost use Rattle.shm_lines.specs.Calls.{words_of_call};

    ghost output = { λ words. Some (join_with_byte 32 (words_of_call words.0)) };

    fn fmt<W: fmt::Write>(&self, f: &mut fmt::Formatter<W>) -> fmt::Result {
        match self.0 {
            Op::Get {
                cred,
                key,
                size,
                mode,
                flags,
            } => {
                let uid = cred.uid;
                let gid = cred.gid;
                let flags = FlagsWord(flags);
                write!(f, "{uid} {gid} {} {size} {mode} {flags}", key.0)
            }
            Op::Attach { cred, id, ro } => write!(f, "{} {}", On { cred, id }, AccessWord(ro)),
            Op::Detach { id } => write!(f, "id {}", id.0),
            Op::Remove { cred, id } => write!(f, "{}", On { cred, id }),
            Op::Set {
                cred,
                id,
                uid,
                gid,
                mode,
            } => write!(f, "{} {uid} {gid} {mode}", On { cred, id }),
            Op::Stat { cred, id } => write!(f, "{}", On { cred, id }),
        }
    }
}

/// The caller, and the segment that the call names.
#[derive(Clone, Copy)]
struct On {
    cred: Cred,
    id: SegId,
}

impl fmt::Display for On {
    ghost use Rattle.std.specs.Prelude.{Some, [], ◌∷◌};
    ghost use Rattle.std.specs.Fmt.{decimal};
    ghost use Rattle.std.specs.List.{join_with_byte};
    ghost use Rattle.shm_lines.specs.Calls as spelled;

    ghost output = { λ on. Some (join_with_byte 32 (spelled.by on.cred (decimal on.id ∷ []))) };

    fn fmt<W: fmt::Write>(&self, f: &mut fmt::Formatter<W>) -> fmt::Result {
        let uid = self.cred.uid;
        let gid = self.cred.gid;
        write!(f, "{uid} {gid} {}", self.id.0)
    }
}
