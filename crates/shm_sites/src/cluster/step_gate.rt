//! A gate before each step of a site's thread.
use shm_place::SiteId;

/// A gate that a site's own thread passes before each of its steps, while it holds the site's lock. A gate may wait. Then the site stands
/// still, and so does whoever wants its lock, while other sites go on. Clients pass no gate.
pub trait Gate {
    /// Called with the site whose lock is held; its step is made when this returns.
    fn pass(&self, site: SiteId);
}

/// A gate that lets every thread pass.
#[derive(Clone, Copy, Debug)]
pub struct OpenGate;

impl Gate for OpenGate {
    fn pass(&self, _site: SiteId) {}
}
