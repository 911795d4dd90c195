use shm_model::Asked;
use shm_place::SiteId;

/// A load or a store of a workload: the site that makes it, and what it asks, through the site's attachment 0.
#[derive(Clone, Copy, Debug, PartialEq, Eq)]
pub struct WorkloadAccess {
    pub site: SiteId,
    pub asked: Asked,
}
