//! The rule for an envelope that comes to a machine while a page is mapped.
ghost use Rattle.std.specs.Prelude.{◌≡◌};
ghost use Rattle.shm_mapping.specs.Verdicts as spec;

use shm_model::Kind;

/// The effect of an envelope on a page's entry at the site that it is for.
#[derive(Clone, Copy, Debug, PartialEq, Eq)]
pub enum Brought {
    /// A Clear: the site has to give its copy up.
    Clear,
    /// A Hand for another site: an owner is to lend it a copy (`Read`), or to hand the page over to it (`Write`).
    Hand(Kind),
    /// A Page, a Hand for this site itself, or a message for the manager's book: the site loses no right by it.
    Other,
}

/// What a machine does before its site takes an envelope.
#[derive(Clone, Copy, Debug, PartialEq, Eq)]
pub enum Verdict {
    /// Nothing: the site takes it at once.
    Take,
    /// Turns the page's mapping from write into read, and brings the bytes that changed.
    UnmapToRead,
    /// Unmaps the page, and brings the bytes that changed.
    Unmap,
}

/// What a machine does with an envelope about a page that it maps with this right. It takes an envelope about any other page at once (Li
/// and Hudak 1989, §3.1: invalidation and change of ownership lower the protection of the page first).
pub fn verdict_on(brought: Brought, mapped: Kind) -> Verdict
    ensures { result ≡ spec.verdict brought mapped }
{
    match (brought, mapped) {
        (Brought::Clear, Kind::Read) | (Brought::Hand(Kind::Write), _) => Verdict::Unmap,
        (Brought::Hand(Kind::Read), Kind::Write) => Verdict::UnmapToRead,
        _ => Verdict::Take,
    }
}
