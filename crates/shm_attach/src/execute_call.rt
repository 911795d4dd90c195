//! One call on a home's table, with what it destroys.
ghost use Rattle.std.specs.Prelude.{◌≡◌, false, IfOk, IfSome, OnErr};
ghost use Rattle.shm_model.specs.Kernel.{named_by};
ghost use Rattle.shm_model.specs.declared.call.Op.TheVariants.{Get as GetOp, Attach as AttachOp, Detach as DetachOp, Remove as RemoveOp, Set as SetOp, Stat as StatOp};
ghost use Rattle.shm_place.specs.Home.{home_of_id};
ghost use Rattle.shm_attach.specs.Home.{IsRun, MakesSegment, may_destroy};

use crate::call_outcome::Done;
use shm_keys::{GetFault, SegTable};
use shm_model::{Attached, Cred, Errno, GetFlags, Mode, Op, Reply, Stat};
use shm_place::{Key, SegId};
use std::alloc::{AllocError, Allocator};

/// Executes the call. Where memory is refused nothing has changed.
pub(crate) fn execute<A: Allocator + Copy>(
    table: &mut SegTable<A>,
    op: Op,
) -> Result<Done, AllocError>
    requires { IfSome (named_by op) (λ id. home_of_id table.old.sites id ≡ table.old.home) }
    ensures run { IfOk result (λ done. IsRun op table.old table.new done) }
    ensures spared { IfOk result (λ done. may_destroy op ≡ false → done.destroyed ≡ None) }
    ensures refused { OnErr result (table.new ≡ table.old) }
    ensures memory { OnErr result (MakesSegment op table.old) }
{
    match op {
        Op::Get {
            cred,
            key,
            size,
            mode,
            flags,
        } => get(table, cred, key, size, mode, flags),
        Op::Attach { cred, id, ro } => Ok(attach(table, cred, id, ro)),
        Op::Detach { id } => Ok(detach(table, id)),
        Op::Remove { cred, id } => Ok(remove(table, cred, id)),
        Op::Set {
            cred,
            id,
            uid,
            gid,
            mode,
        } => Ok(set(table, cred, id, uid, gid, mode)),
        Op::Stat { cred, id } => Ok(stat(table, cred, id)),
    }
}

fn get<A: Allocator + Copy>(
    table: &mut SegTable<A>,
    cred: Cred,
    key: Key,
    size: u32,
    mode: Mode,
    flags: GetFlags,
) -> Result<Done, AllocError>
    ensures run { IfOk result (λ done. IsRun (GetOp cred key size mode flags) table.old table.new done) }
    ensures spared { IfOk result (λ done. done.destroyed ≡ None) }
    ensures refused { OnErr result (table.new ≡ table.old) }
    ensures memory { OnErr result (MakesSegment (GetOp cred key size mode flags) table.old) }
{
    match table.get(cred, key, size, mode, flags) {
        Ok(id) => Ok(reply_alone(Reply::Id(id))),
        Err(GetFault::Refused(errno)) => Ok(reply_alone(Reply::Refused(errno))),
        Err(GetFault::OutOfMemory) => Err(AllocError),
    }
}

fn attach<A: Allocator + Copy>(table: &mut SegTable<A>, cred: Cred, id: SegId, ro: bool) -> Done
    requires { home_of_id table.old.sites id ≡ table.old.home }
    ensures run { IsRun (AttachOp cred id ro) table.old table.new result }
    ensures spared { result.destroyed ≡ None }
{
    match table.attach(cred, id, ro) {
        Ok(attached) => reply_alone(Reply::Attached(attached)),
        Err(errno) => reply_alone(Reply::Refused(errno)),
    }
}

fn detach<A: Allocator + Copy>(table: &mut SegTable<A>, id: SegId) -> Done
    requires { home_of_id table.old.sites id ≡ table.old.home }
    ensures { IsRun (DetachOp id) table.old table.new result }
{
    match table.detach(id) {
        Ok(destroyed) => Done {
            reply: Reply::Ok,
            destroyed,
        },
        Err(errno) => reply_alone(Reply::Refused(errno)),
    }
}

fn remove<A: Allocator + Copy>(table: &mut SegTable<A>, cred: Cred, id: SegId) -> Done
    requires { home_of_id table.old.sites id ≡ table.old.home }
    ensures { IsRun (RemoveOp cred id) table.old table.new result }
{
    match table.remove(cred, id) {
        Ok(destroyed) => Done {
            reply: Reply::Ok,
            destroyed,
        },
        Err(errno) => reply_alone(Reply::Refused(errno)),
    }
}

fn set<A: Allocator + Copy>(
    table: &mut SegTable<A>,
    cred: Cred,
    id: SegId,
    uid: u32,
    gid: u32,
    mode: Mode,
) -> Done
    requires { home_of_id table.old.sites id ≡ table.old.home }
    ensures run { IsRun (SetOp cred id uid gid mode) table.old table.new result }
    ensures spared { result.destroyed ≡ None }
{
    match table.set(cred, id, uid, gid, mode) {
        Ok(()) => reply_alone(Reply::Ok),
        Err(errno) => reply_alone(Reply::Refused(errno)),
    }
}

fn stat<A: Allocator + Copy>(table: &SegTable<A>, cred: Cred, id: SegId) -> Done
    requires { home_of_id table.now.sites id ≡ table.now.home }
    ensures run { IsRun (StatOp cred id) table.now table.now result }
    ensures spared { result.destroyed ≡ None }
{
    match table.stat(cred, id) {
        Ok(stat) => reply_alone(Reply::Stat(stat)),
        Err(errno) => reply_alone(Reply::Refused(errno)),
    }
}

/// A reply to a call that destroyed nothing.
fn reply_alone(reply: Reply) -> Done
    ensures { result ≡ record { reply = reply; destroyed = None } }
{
    Done {
        reply,
        destroyed: None,
    }
}
