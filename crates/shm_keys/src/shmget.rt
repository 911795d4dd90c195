ghost use Rattle.std.specs.Prelude.{◌≡◌, ◌≢◌, ℕ, ◌+◌, ◌*◌, ◌<◌, ◌≤◌, ◌^◌, ◌==◌, ◌&&◌, not, List, None, Some, IfSome, IfNone, OnOk, OnErr, nat_eq, vec_len, vec_capacity, if◌then◌else◌};
ghost use Rattle.indexmap.specs.IndexMap.{get as get_at, spare};
ghost use Rattle.shm_model.specs.Kernel.{call, get_present, make, next_id, with_key};
ghost use Rattle.shm_model.specs.Permission.{has_creat, has_excl};
ghost use Rattle.shm_model.specs.declared.call.Op.TheVariants.{Get};
ghost use Rattle.shm_model.specs.Permission.{Segment as Record};

use crate::pending_purge::Purge;
use crate::segment_record::Segment;
use crate::segment_table::SegTable;
use bitflags::Flags;
use indexmap::IndexMap;
use shm_model::refusal::{Numbered, OUT_OF_MEMORY};
use shm_model::{Cred, Errno, GetFlags, Mode};
use shm_place::{Key, MAX_SEGMENT_BYTES, SEGMENTS_OF_A_HOME, SegId, SiteId, Sites};
use std::alloc::{AllocError, Allocator};
use std::hash::{BuildHasherDefault, FoldHasher};

/// How many segments of a home may be there at a time, marked ones among them.
pub const MAX_LIVE: usize = 64;

/// Why a `get` gave no identifier.
#[derive(Clone, Copy, Debug, PartialEq, Eq)]
pub enum GetFault {
    /// The call was refused (`shmget(2)`).
    Refused(Errno),
    /// There was no memory for the new segment's record. Nothing has changed.
    OutOfMemory,
}

impl Numbered for GetFault {
    ghost use Rattle.shm_keys.specs.GetFault.{get_fault_number};

    ghost number_of = { get_fault_number };

    fn number(&self) -> u8 {
        match self {
            GetFault::Refused(errno) => errno.number(),
            GetFault::OutOfMemory => OUT_OF_MEMORY,
        }
    }
}

/// Makes the room that a further segment needs, also for when it is destroyed.
pub(crate) fn reserve<A: Allocator + Copy>(
    segments: &mut Vec<Segment, A>,
    keys: &mut IndexMap<u32, usize, BuildHasherDefault<FoldHasher>, A>,
    purges: &mut Vec<Purge, A>,
    live: usize,
) -> Result<(), AllocError>
    requires { live < 2 ^ 32 }
    ensures segments { segments.new.items ≡ segments.old.items }
    ensures keys { (key : ℕ) → get_at nat_eq keys.new key ≡ get_at nat_eq keys.old key }
    ensures purges { purges.new.items ≡ purges.old.items }
    ensures capacity { vec_capacity purges.old ≤ vec_capacity purges.new }
    ensures segment_room { OnOk result (vec_len segments.new < vec_capacity segments.new) }
    ensures key_room { OnOk result (0 < spare keys.new) }
    ensures purge_room { OnOk result (live + 1 + vec_len purges.new ≤ vec_capacity purges.new) }
{
    segments.reserve(1)?;
    keys.reserve(1)?;
    purges.reserve(live + 1)?;
    Ok(())
}

/// A new segment's key leads to its place.
pub(crate) fn index_key<A: Allocator + Copy>(
    keys: &mut IndexMap<u32, usize, BuildHasherDefault<FoldHasher>, A>,
    key: Key,
    place: usize,
)
    requires { 0 < spare keys.old }
    ensures { (other : ℕ) → get_at nat_eq keys.new other ≡ (if not (key == 0) && (key == other) then Some place else get_at nat_eq keys.old other) }
{
    if key.0 != 0 {
        let _ = keys.insert(key.0, place);
    }
}

impl<A: Allocator + Copy> SegTable<A> {
    ghost use Rattle.shm_keys.specs.Answer.{IsGetAnswer};

    /// `shmget(2)`: the identifier of the key's segment, or of a new one. The sizes compared are those asked, and size 0 asks for none.
    pub fn get(
        &mut self,
        cred: Cred,
        key: Key,
        size: u32,
        mode: Mode,
        flags: GetFlags,
    ) -> Result<SegId, GetFault>
        ensures answer { IsGetAnswer result (next_id self.old.sites self.old.home self.old.segments)
            (call self.old.sites self.old.home (Get cred key size mode flags) self.old.segments) self.new.segments }
        ensures rest { self.new ≡ record self.old { segments = self.new.segments } }
        ensures unchanged { OnErr result (self.new ≡ self.old) }
    {
        if key.0 == 0 {
            return self.make(cred, key, size, mode);
        }
        match self.with_key(key) {
            Some(segment) => segment.get(cred, size, mode, flags),
            None => {
                if !creates(flags) {
                    return Err(GetFault::Refused(Errno::Enoent));
                }
                self.make(cred, key, size, mode)
            }
        }
    }

    /// The segment that has the key.
    pub(crate) fn with_key(&self, key: Key) -> Option<Segment>
        requires { key ≢ 0 }
        ensures { result ≡ with_key key self.now.segments }
    {
        match self.keys.get(&key.0) {
            None => None,
            Some(place) => Some(self.segments[*place]),
        }
    }

    /// Makes a segment. EINVAL: the size is 0 or above the greatest. ENOSPC: the home can't have another.
    fn make(&mut self, cred: Cred, key: Key, size: u32, mode: Mode) -> Result<SegId, GetFault>
        requires { key ≢ 0 → with_key key self.old.segments ≡ None }
        ensures answer { IsGetAnswer result (next_id self.old.sites self.old.home self.old.segments)
            (make self.old.sites self.old.home cred key size mode self.old.segments) self.new.segments }
        ensures rest { self.new ≡ record self.old { segments = self.new.segments } }
        ensures unchanged { OnErr result (self.new ≡ self.old) }
    {
        if size == 0 || size > MAX_SEGMENT_BYTES {
            return Err(GetFault::Refused(Errno::Einval));
        }
        let place = self.segments.len();
        if self.live >= MAX_LIVE || place >= SEGMENTS_OF_A_HOME as usize {
            return Err(GetFault::Refused(Errno::Enospc));
        }
        if reserve(
            &mut self.segments,
            &mut self.keys,
            &mut self.purges,
            self.live,
        )
        .is_err()
        {
            return Err(GetFault::OutOfMemory);
        }
        let id = id_at(place, self.sites, self.home);
        let _ = self.segments.push(Segment::new(id, cred, key, size, mode));
        index_key(&mut self.keys, key, place);
        self.live += 1;
        Ok(id)
    }
}

/// The identifier that a home gives at a place in the order of making.
pub(crate) fn id_at(place: usize, sites: Sites, home: SiteId) -> SegId
    requires place { place < SEGMENTS_OF_A_HOME }
    requires home { home < sites }
    ensures { result ≡ place * sites + home }
{
    SegId(place as u32 * sites.count() + home.0)
}

/// Checks that `IPC_CREAT` is given.
#[tactic(auto, using(crate::proofs::Bits::creat_flag))]
fn creates(flags: GetFlags) -> bool
    ensures { result ≡ has_creat flags.0 }
{
    flags.contains(GetFlags::CREAT)
}

/// Checks that `IPC_CREAT` and `IPC_EXCL` are given: the key has to be free.
#[tactic(auto, using(crate::proofs::Bits::excl_flag))]
fn creates_only(flags: GetFlags) -> bool
    ensures { result ≡ (has_creat flags.0 && has_excl flags.0) }
{
    creates(flags) && flags.contains(GetFlags::EXCL)
}

impl Segment {
    ghost use Rattle.shm_keys.specs.Answer.{IsGetAnswer};

    /// The key has a segment: EEXIST, EINVAL where it is smaller than asked, and only then EACCES.
    fn get(&self, cred: Cred, size: u32, mode: Mode, flags: GetFlags) -> Result<SegId, GetFault>
        ensures { (fresh : ℕ) (segments : List Record) → IsGetAnswer result fresh
            (get_present self.now (has_creat flags.0 && has_excl flags.0) cred size mode segments) segments }
    {
        if creates_only(flags) {
            return Err(GetFault::Refused(Errno::Eexist));
        }
        if self.size < size {
            return Err(GetFault::Refused(Errno::Einval));
        }
        if !self.may_get(cred, mode) {
            return Err(GetFault::Refused(Errno::Eacces));
        }
        Ok(self.id)
    }
}
