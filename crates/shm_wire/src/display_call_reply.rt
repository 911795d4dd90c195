//! Spells the replies to segment calls.
use shm_lines::AccessWord;
use shm_model::{Errno, Reply, Stat};
use std::fmt;

/// The reply to a segment call, as its words spell it.
#[derive(Clone, Copy)]
pub struct ReplyWords(pub Reply);

impl fmt::Display for ReplyWords {
    ghost use Rattle.std.specs.Prelude.{Some};
    ghost use Rattle.std.specs.List.{join_with_byte};
    ghost use Rattle.shm_wire.specs.Replies.{reply_words};

    ghost output = { λ words. Some (join_with_byte 32 (reply_words words.0)) };

    fn fmt<W: fmt::Write>(&self, f: &mut fmt::Formatter<W>) -> fmt::Result {
        match self.0 {
            Reply::Id(id) => write!(f, "id {}", id.0),
            Reply::Attached(attached) => {
                let size = attached.size;
                write!(f, "attached {size} {}", AccessWord(attached.ro))
            }
            Reply::Ok => write!(f, "ok"),
            Reply::Stat(stat) => {
                let stat = StatWords(stat);
                write!(f, "stat {stat}")
            }
            Reply::Refused(error) => write!(f, "refused {}", ErrnoWord(error)),
        }
    }
}

/// The words of a segment's record.
#[derive(Clone, Copy)]
struct StatWords(Stat);

impl fmt::Display for StatWords {
    ghost use Rattle.std.specs.Prelude.{Some};
    ghost use Rattle.std.specs.List.{join_with_byte};
    ghost use Rattle.shm_wire.specs.Replies.{stat_words};

    ghost output = { λ words. Some (join_with_byte 32 (stat_words words.0)) };

    fn fmt<W: fmt::Write>(&self, f: &mut fmt::Formatter<W>) -> fmt::Result {
        let Stat {
            key,
            uid,
            gid,
            cuid,
            cgid,
            mode,
            size,
            nattch,
            marked,
        } = self.0;
        let key = key.0;
        let standing = StandingWord(marked);
        write!(
            f,
            "{key} {uid} {gid} {cuid} {cgid} {mode} {size} {nattch} {standing}"
        )
    }
}

/// The word that says whether a segment is marked to be destroyed.
#[derive(Clone, Copy)]
pub struct StandingWord(pub bool);

impl fmt::Display for StandingWord {
    ghost use Rattle.std.specs.Prelude.{Some};
    ghost use Rattle.shm_wire.specs.Words.{standing_word};

    ghost output = { λ word. Some (standing_word word.0) };

    fn fmt<W: fmt::Write>(&self, f: &mut fmt::Formatter<W>) -> fmt::Result {
        if self.0 {
            return write!(f, "marked");
        }
        write!(f, "live")
    }
}

/// A system's error, as a word.
#[derive(Clone, Copy)]
struct ErrnoWord(Errno);

impl fmt::Display for ErrnoWord {
    ghost use Rattle.std.specs.Prelude.{Some};
    ghost use Rattle.shm_wire.specs.Words.{errno_word};

    ghost output = { λ word. Some (errno_word word.0) };

    fn fmt<W: fmt::Write>(&self, f: &mut fmt::Formatter<W>) -> fmt::Result {
        match self.0 {
            Errno::Eacces => write!(f, "eacces"),
            Errno::Eexist => write!(f, "eexist"),
            Errno::Eidrm => write!(f, "eidrm"),
            Errno::Einval => write!(f, "einval"),
            Errno::Enoent => write!(f, "enoent"),
            Errno::Enospc => write!(f, "enospc"),
            Errno::Eperm => write!(f, "eperm"),
        }
    }
}
