ghost use Rattle.std.specs.Prelude.{◌≡◌, IfOk, OnErr};
ghost use Rattle.shm_place.specs.Home.{home_of_id};
ghost use Rattle.shm_model.specs.Kernel.{destroyed_by};
ghost use Rattle.shm_model.specs.declared.call.Op.TheVariants.{Attach, Detach, Remove, Set, Stat as StatOp};
ghost use Rattle.shm_keys.specs.Answer.{Answers, Purges, attach_reply, done_reply, stat_reply};

use crate::segment_table::SegTable;
use shm_model::{Attached, Cred, Errno, Mode, Stat};
use shm_place::{Key, SegId};
use std::alloc::Allocator;

impl<A: Allocator + Copy> SegTable<A> {
    /// `shmat(2)`: EINVAL, EIDRM, EACCES; ENOSPC where no further attachment can be counted.
    pub fn attach(&mut self, cred: Cred, id: SegId, ro: bool) -> Result<Attached, Errno>
        requires { home_of_id self.old.sites id ≡ self.old.home }
        ensures answer { Answers (Attach cred id ro) (attach_reply result) self.old self.new }
        ensures rest { self.new ≡ record self.old { segments = self.new.segments } }
        ensures unchanged { OnErr result (self.new ≡ self.old) }
    {
        let before = self.live(id)?;
        if !before.may_attach(cred, ro) {
            return Err(Errno::Eacces);
        }
        if before.nattch == u64::MAX {
            return Err(Errno::Enospc);
        }
        let mut after = before;
        after.nattch += 1;
        self.replace(before, after);
        Ok(Attached {
            size: before.size,
            ro,
        })
    }

    /// `shmdt(2)`: EINVAL, also where nobody is attached, and EIDRM. A marked segment goes with the last attachment: it is the
    /// answer then.
    pub fn detach(&mut self, id: SegId) -> Result<Option<SegId>, Errno>
        requires { home_of_id self.old.sites id ≡ self.old.home }
        ensures answer { Answers (Detach id) (done_reply result) self.old self.new }
        ensures destroyed { IfOk result (λ gone. destroyed_by (Detach id) self.old.segments self.new.segments ≡ gone) }
        ensures missing { Purges (Detach id) self.old self.new }
        ensures rest { self.new ≡ record self.old { segments = self.new.segments; missing = self.new.missing } }
        ensures unchanged { OnErr result (self.new ≡ self.old) }
    {
        let before = self.live(id)?;
        if before.nattch == 0 {
            return Err(Errno::Einval);
        }
        let mut after = before;
        after.nattch -= 1;
        Ok(self.replace(before, after))
    }

    /// `IPC_RMID` of `shmctl(2)`: EINVAL, EIDRM, EPERM. The key is free at once; the segment goes once nobody is
    /// attached: if at once, it is the answer.
    pub fn remove(&mut self, cred: Cred, id: SegId) -> Result<Option<SegId>, Errno>
        requires { home_of_id self.old.sites id ≡ self.old.home }
        ensures answer { Answers (Remove cred id) (done_reply result) self.old self.new }
        ensures destroyed { IfOk result (λ gone. destroyed_by (Remove cred id) self.old.segments self.new.segments ≡ gone) }
        ensures missing { Purges (Remove cred id) self.old self.new }
        ensures rest { self.new ≡ record self.old { segments = self.new.segments; missing = self.new.missing } }
        ensures unchanged { OnErr result (self.new ≡ self.old) }
    {
        let before = self.live(id)?;
        if !before.is_owner(cred) {
            return Err(Errno::Eperm);
        }
        let mut after = before;
        after.key = Key(0);
        after.marked = true;
        Ok(self.replace(before, after))
    }

    /// `IPC_SET` of `shmctl(2)`: EINVAL, EIDRM, EPERM. Whoever made the segment stays its creator.
    pub fn set(
        &mut self,
        cred: Cred,
        id: SegId,
        uid: u32,
        gid: u32,
        mode: Mode,
    ) -> Result<(), Errno>
        requires { home_of_id self.old.sites id ≡ self.old.home }
        ensures answer { Answers (Set cred id uid gid mode) (done_reply result) self.old self.new }
        ensures rest { self.new ≡ record self.old { segments = self.new.segments } }
        ensures unchanged { OnErr result (self.new ≡ self.old) }
    {
        let before = self.live(id)?;
        if !before.is_owner(cred) {
            return Err(Errno::Eperm);
        }
        let mut after = before;
        after.uid = uid;
        after.gid = gid;
        after.mode = mode;
        self.replace(before, after);
        Ok(())
    }

    /// `IPC_STAT` of `shmctl(2)`: EINVAL, EIDRM, EACCES.
    pub fn stat(&self, cred: Cred, id: SegId) -> Result<Stat, Errno>
        requires { home_of_id self.now.sites id ≡ self.now.home }
        ensures { Answers (StatOp cred id) (stat_reply result) self.now self.now }
    {
        let segment = self.live(id)?;
        if !segment.may_stat(cred) {
            return Err(Errno::Eacces);
        }
        Ok(segment.stat())
    }
}
