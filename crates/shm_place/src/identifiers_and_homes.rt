ghost use Rattle.std.specs.Prelude.{◌≡◌, ℕ, ◌<◌};
ghost use Rattle.shm_place.specs.Home;

use crate::site_count::Sites;
use std::marker::Model;

/// A key under which a segment is made and found; 0 is `IPC_PRIVATE` (`shmget(2)`).
#[derive(Clone, Copy, Debug, PartialEq, Eq, Hash)]
pub struct Key(pub u32);

impl Model for Key {
    ghost Value = { ℕ };

    ghost view = { λ key. key.0 };

    ghost inverse = { λ n. record { 0 = n } };
}

/// A segment's identifier (`shmget(2)`); no identifier is ever used again.
#[derive(Clone, Copy, Debug, PartialEq, Eq, Hash)]
pub struct SegId(pub u32);

impl Model for SegId {
    ghost Value = { ℕ };

    ghost view = { λ id. id.0 };

    ghost inverse = { λ n. record { 0 = n } };
}

/// A site's number, from 0.
#[derive(Clone, Copy, Debug, PartialEq, Eq, Hash)]
pub struct SiteId(pub u32);

impl Model for SiteId {
    ghost Value = { ℕ };

    ghost view = { λ site. site.0 };

    ghost inverse = { λ n. record { 0 = n } };
}

/// The home of a key: where its segment is made and looked up. Key 0 belongs to the calling site.
pub fn home_of_key(sites: Sites, caller: SiteId, key: Key) -> SiteId
    ensures home { result ≡ Home.home_of_key sites caller key }
{
    if key.0 == 0 {
        return caller;
    }
    SiteId(key.0 % sites.count())
}

/// The home of an identifier, which made the segment and keeps its record.
pub fn home_of_id(sites: Sites, id: SegId) -> SiteId
    ensures home { result ≡ Home.home_of_id sites id }
    ensures below { result < sites }
{
    SiteId(id.0 % sites.count())
}
