ghost use Rattle.std.specs.Prelude.{◌≡◌};
ghost use Rattle.shm_model.specs.Permission.{destroyed};
ghost use Rattle.shm_model.specs.Kernel.{new_segment};

use shm_model::{Cred, Mode, Stat};
use shm_place::{Key, SegId};
use std::marker::Model;

/// A segment's record (`shmctl(2)`, `struct shmid_ds`). `size` is the size asked, in bytes; a marked segment has key 0.
#[derive(Clone, Copy)]
pub struct Segment {
    pub id: SegId,
    pub key: Key,
    pub uid: u32,
    pub gid: u32,
    pub cuid: u32,
    pub cgid: u32,
    pub mode: Mode,
    pub size: u32,
    pub nattch: u64,
    pub marked: bool,
}

impl Model for Segment {
    ghost use Rattle.shm_model.specs.Permission.{Segment as Record};

    ghost Value = { Record };

    ghost view = { λ g. record {
      id = g.id;
      key = g.key;
      uid = g.uid;
      gid = g.gid;
      cuid = g.cuid;
      cgid = g.cgid;
      mode = g.mode;
      size = g.size;
      nattch = g.nattch;
      marked = g.marked;
    } };

    ghost inverse = { λ g. record {
      id = g.id;
      key = g.key;
      uid = g.uid;
      gid = g.gid;
      cuid = g.cuid;
      cgid = g.cgid;
      mode = g.mode;
      size = g.size;
      nattch = g.nattch;
      marked = g.marked;
    } };
}

impl Segment {
    /// A new segment, which belongs to its maker.
    pub fn new(id: SegId, cred: Cred, key: Key, size: u32, mode: Mode) -> Segment
        ensures { result ≡ new_segment id cred key size mode }
    {
        Segment {
            id,
            key,
            uid: cred.uid,
            gid: cred.gid,
            cuid: cred.uid,
            cgid: cred.gid,
            mode,
            size,
            nattch: 0,
            marked: false,
        }
    }

    /// Checks that it is gone: marked, with nobody attached.
    pub fn is_destroyed(&self) -> bool
        ensures { result ≡ destroyed self.now }
    {
        self.marked && self.nattch == 0
    }

    /// The record that `stat` answers.
    pub fn stat(&self) -> Stat
        ensures { result ≡ record {
          key = self.now.key;
          uid = self.now.uid;
          gid = self.now.gid;
          cuid = self.now.cuid;
          cgid = self.now.cgid;
          mode = self.now.mode;
          size = self.now.size;
          nattch = self.now.nattch;
          marked = self.now.marked;
        } }
    {
        Stat {
            key: self.key,
            uid: self.uid,
            gid: self.gid,
            cuid: self.cuid,
            cgid: self.cgid,
            mode: self.mode,
            size: self.size,
            nattch: self.nattch,
            marked: self.marked,
        }
    }
}
