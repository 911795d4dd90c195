//! Reads the replies to segment calls.
ghost use Rattle.std.specs.Prelude.{◌≡◌};
ghost use Rattle.shm_wire.specs.Replies.{reply_of, id_of, attached_of, stat_of, refused_of};

use crate::parse_wire_words::{errno, if_ended, standing, wide};
use shm_lines::Words;
use shm_model::{Attached, Reply, Stat};
use shm_place::{Key, SegId};

/// The reply that these words spell.
pub fn reply(words: Words<'_>) -> Option<Reply>
    ensures { result ≡ reply_of words.entry }
{
    let (verb, words) = words.word()?;
    if verb == b"id".as_slice() {
        return id(words);
    }
    if verb == b"attached".as_slice() {
        return attached_reply(words);
    }
    if verb == b"ok".as_slice() {
        return if_ended(Reply::Ok, words);
    }
    if verb == b"stat".as_slice() {
        return stat(words);
    }
    if verb == b"refused".as_slice() {
        return refused_reply(words);
    }
    None
}

fn id(words: Words<'_>) -> Option<Reply>
    ensures { result ≡ id_of words.entry }
{
    let (id, words) = words.number()?;
    if_ended(Reply::Id(SegId(id)), words)
}

fn attached_reply(words: Words<'_>) -> Option<Reply>
    ensures { result ≡ attached_of words.entry }
{
    let (size, words) = words.number()?;
    let (ro, words) = words.access()?;
    if_ended(Reply::Attached(Attached { size, ro }), words)
}

fn stat(words: Words<'_>) -> Option<Reply>
    ensures { result ≡ stat_of words.entry }
{
    let (key, words) = words.number()?;
    let (uid, words) = words.number()?;
    let (gid, words) = words.number()?;
    let (cuid, words) = words.number()?;
    let (cgid, words) = words.number()?;
    let (mode, words) = words.mode()?;
    let (size, words) = words.number()?;
    let (nattch, words) = wide(words)?;
    let (marked, words) = standing(words)?;
    let stat = Stat {
        key: Key(key),
        uid,
        gid,
        cuid,
        cgid,
        mode,
        size,
        nattch,
        marked,
    };
    if_ended(Reply::Stat(stat), words)
}

fn refused_reply(words: Words<'_>) -> Option<Reply>
    ensures { result ≡ refused_of words.entry }
{
    let (error, words) = errno(words)?;
    if_ended(Reply::Refused(error), words)
}
