use shm_model::Reply;
use shm_place::SegId;

/// A home's answer to a call: the reply, and the segment that this call destroyed, if any. Every site has to purge that segment.
#[derive(Clone, Copy, Debug, PartialEq, Eq)]
pub struct Done {
    pub reply: Reply,
    pub destroyed: Option<SegId>,
}
