//! Reads the words of a segment call: those behind its verb, and in a script behind its site.
ghost use Rattle.std.specs.Prelude.{◌≡◌};
ghost use Rattle.shm_lines.specs.Calls.{attach_of, call_of, common_of, detach_at_of, detach_of, get_of, remove_of, request_of, set_of, stat_of};
ghost use Rattle.shm_lines.specs.Words.{ended};

use crate::split_words::Words;
use shm_model::{Op, Request};
use shm_place::{Key, SegId};

/// Reads a segment call, by its verb and the words behind it. A detach names the attachment: `detach ATTACHMENT`.
pub fn parse_request(verb: &[u8], words: Words<'_>) -> Option<Request>
    ensures { result ≡ request_of verb.now words.entry }
{
    if verb == b"detach".as_slice() {
        return detach_at(words);
    }
    let op = common(verb, words)?;
    Some(Request::Op(op))
}

/// The segment call that a site sends to another, by all its words. A detach names the segment: `detach id SEGMENT`.
pub fn parse_call(words: Words<'_>) -> Option<Op>
    ensures { result ≡ call_of words.entry }
{
    let (verb, words) = words.word()?;
    if verb == b"detach".as_slice() {
        return detach(words);
    }
    common(verb, words)
}

/// The segment call of this verb, except a detach.
fn common(verb: &[u8], words: Words<'_>) -> Option<Op>
    ensures { result ≡ common_of verb.now words.entry }
{
    if verb == b"get".as_slice() {
        return get(words);
    }
    if verb == b"attach".as_slice() {
        return attach(words);
    }
    if verb == b"remove".as_slice() {
        return remove(words);
    }
    if verb == b"set".as_slice() {
        return set(words);
    }
    if verb == b"stat".as_slice() {
        return stat(words);
    }
    None
}

fn detach_at(words: Words<'_>) -> Option<Request>
    ensures { result ≡ detach_at_of words.entry }
{
    let (at, words) = words.number()?;
    if !words.is_empty() {
        return None;
    }
    Some(Request::DetachAt(at))
}

fn detach(words: Words<'_>) -> Option<Op>
    ensures { result ≡ detach_of words.entry }
{
    let (word, words) = words.word()?;
    let (id, words) = words.number()?;
    if word != b"id".as_slice() {
        return None;
    }
    if_ended(Op::Detach { id: SegId(id) }, words)
}

fn get(words: Words<'_>) -> Option<Op>
    ensures { result ≡ get_of words.entry }
{
    let (cred, words) = words.cred()?;
    let (key, words) = words.number()?;
    let (size, words) = words.number()?;
    let (mode, words) = words.mode()?;
    let (flags, words) = words.flags()?;
    let op = Op::Get {
        cred,
        key: Key(key),
        size,
        mode,
        flags,
    };
    if_ended(op, words)
}

fn attach(words: Words<'_>) -> Option<Op>
    ensures { result ≡ attach_of words.entry }
{
    let (cred, words) = words.cred()?;
    let (id, words) = words.number()?;
    let (ro, words) = words.access()?;
    let op = Op::Attach {
        cred,
        id: SegId(id),
        ro,
    };
    if_ended(op, words)
}

fn remove(words: Words<'_>) -> Option<Op>
    ensures { result ≡ remove_of words.entry }
{
    let (cred, words) = words.cred()?;
    let (id, words) = words.number()?;
    let op = Op::Remove {
        cred,
        id: SegId(id),
    };
    if_ended(op, words)
}

fn set(words: Words<'_>) -> Option<Op>
    ensures { result ≡ set_of words.entry }
{
    let (cred, words) = words.cred()?;
    let (id, words) = words.number()?;
    let (uid, words) = words.number()?;
    let (gid, words) = words.number()?;
    let (mode, words) = words.mode()?;
    let op = Op::Set {
        cred,
        id: SegId(id),
        uid,
        gid,
        mode,
    };
    if_ended(op, words)
}

fn stat(words: Words<'_>) -> Option<Op>
    ensures { result ≡ stat_of words.entry }
{
    let (cred, words) = words.cred()?;
    let (id, words) = words.number()?;
    let op = Op::Stat {
        cred,
        id: SegId(id),
    };
    if_ended(op, words)
}

/// The call, if no word is left.
fn if_ended(op: Op, words: Words<'_>) -> Option<Op>
    ensures { result ≡ ended op words.entry }
{
    if !words.is_empty() {
        return None;
    }
    Some(op)
}
