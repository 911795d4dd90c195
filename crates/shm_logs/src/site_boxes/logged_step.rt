use crate::site_boxes::sending_stamp::Stamp;
use shm_model::Answer;
use shm_site::{Envelope, Input};
use std::alloc::{Allocator, Global};

/// One step of a site, as its log has it.
#[derive(Drop)]
pub struct Step<A: Allocator + Copy = Global> {
    /// The site's input.
    pub input: Input<A>,
    /// Above those of the site's steps before it, and above that of the step which sent what was handed over.
    pub stamp: u64,
    /// Where the envelope that was handed over was sent.
    pub source: Stamp,
    /// The site's answer.
    pub answer: Answer,
    /// The envelopes that the step sent, in order.
    pub sent: Vec<Envelope<A>, A>,
}
