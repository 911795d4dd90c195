/// The number of envelopes that have numbers. Once more were sent, no site makes a step.
pub const MAX_SENT: u64 = 1 << 63;
