mod answers;
mod out_of_memory;
mod pages;

pub use shm_model::Event::Deliver;
use std::process::Abort;

fn expect_bytes(rt: &impl Abort, text: &[u8], wanted: &str) {
    assert_eq!(rt; text, wanted.as_bytes());
}
