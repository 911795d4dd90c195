ghost use Rattle.shm_parts.specs.Message.{envelope_of};
ghost use Rattle.shm_logs.specs.Boxes.Logged.{stamp_of};
ghost use Rattle.shm_sites.specs.Cluster.Sent.{IsSent};

use shm_logs::{Envelope, Stamp};
use shm_place::SiteId;
use std::alloc::{AllocError, Allocator, Global};

/// An envelope on its way, and where it was sent. By its type a step of a site's log sent it there, so no channel brings another.
#[derive(Drop)]
pub(crate) struct Posted<A: Allocator + Copy = Global> {
    pub(crate) envelope: Envelope<A>,
    pub(crate) source: Stamp,
    ghost sent: { IsSent (record { envelope = envelope_of envelope; source = stamp_of source }) },
}

impl<A: Allocator + Copy> Posted<A> {
    ghost use Rattle.std.specs.Prelude.{◌≡◌, IfOk};

    /// An equal envelope, which was sent at `source`.
    pub(crate) fn of(envelope: &Envelope<A>, source: Stamp) -> Result<Posted<A>, AllocError>
        requires { IsSent (record { envelope = envelope_of envelope.now; source = stamp_of source }) }
        ensures { IfOk result (λ copy. (envelope_of copy.envelope ≡ envelope_of envelope.now) × (copy.source ≡ source)) }
    {
        let envelope = envelope.copy()?;
        Ok(Posted { envelope, source })
    }

    /// The site that it is for.
    pub(crate) fn to(&self) -> SiteId
        ensures { result ≡ self.now.envelope.to }
    {
        self.envelope.to
    }

    /// An equal one, for an envelope that comes twice.
    pub(crate) fn copy(&self) -> Result<Posted<A>, AllocError>
        ensures { IfOk result (λ copy. (envelope_of copy.envelope ≡ envelope_of self.now.envelope) × (copy.source ≡ self.now.source)) }
    {
        Posted::of(&self.envelope, self.source)
    }
}
