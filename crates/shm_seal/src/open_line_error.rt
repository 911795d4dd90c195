/// Why a line isn't opened.
#[derive(Clone, Copy, Debug, PartialEq, Eq)]
pub enum Unsealed {
    /// It doesn't end with the cluster's name or, under a key, with that and a digest's length of further bytes.
    OtherCluster,
    /// It ends with the cluster's name, where a digest has to stand behind that.
    NoDigest,
    /// What stands behind the cluster's name isn't its digest under the key.
    WrongDigest,
}
