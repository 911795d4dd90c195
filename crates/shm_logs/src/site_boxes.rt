//! Logs of running sites, without threads: each site in a box that logs every step that it makes, and receipts that tell of steps.
//!
//! After Lamport 1978 (logical clocks): a step's stamp is above those of its site's earlier steps, and above that of the step that sent the
//! envelope it received.
mod box_error;
mod copy_input;
mod logged_step;
mod receipt;
mod sending_stamp;
mod site_box;
mod site_log;

pub use box_error::BoxFault;
pub use logged_step::Step;
pub use receipt::Receipt;
pub use sending_stamp::Stamp;
pub use shm_model::Asked;
pub use shm_site::{Answer, Envelope, Input};
pub use site_box::SiteBox;
pub use site_log::SiteLog;
