/// The words about a cluster's seal.
#[derive(Clone, Copy, Debug, PartialEq, Eq)]
pub struct SealWords<'a> {
    /// The cluster's name, if one is given.
    pub cluster: Option<&'a str>,
    /// The file of its key, if one is named.
    pub key: Option<&'a str>,
}
