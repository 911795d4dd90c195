/// How often things go wrong, in hundredths.
#[derive(Clone, Copy, Debug, PartialEq, Eq)]
pub struct Odds {
    /// Of the envelopes that would be handed over so many are lost.
    pub lose: u32,
    /// Of the envelopes that would be handed over so many are, and stay on their way.
    pub repeat: u32,
    /// Of the events so many are restarts.
    pub restart: u32,
}
