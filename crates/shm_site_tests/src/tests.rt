mod attach;
mod audit;
mod boxes;
mod fill_heap;
mod keys;
mod lent_copy_in_flight;
mod manager;
mod merge;
mod network;
mod owner_lends_or_hands_over;
mod page;
mod restored_parts;
mod site;
mod write_grant;

use std::process::Abort;

/// Stops the test where this doesn't hold.
fn expect(rt: &impl Abort, holds: bool) {
    assert!(rt; holds);
}
