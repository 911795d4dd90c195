use shm_sites::{Receipt, SiteLog};

/// The result of a workload.
#[derive(Drop)]
pub struct Ran {
    /// For each site, in their order, the receipts of its caller: one for each of the site's lines, in their order.
    pub callers: Vec<Vec<Receipt>>,
    /// The logs of all sites, in their order.
    pub logs: Vec<SiteLog>,
}
