//! Counts the lines that a desk didn't open.
ghost use Rattle.std.specs.Prelude.{◌≡◌};
ghost use Rattle.shm_process.specs.Unopened.{one_unopened, none_unopened};
ghost use Rattle.shm_process.specs.UnopenedOf.{unopened_of};

use shm_seal::Unsealed;

/// How many lines a desk didn't open, by their causes. A count that can't be told in 64 bits stays at the greatest number.
#[derive(Clone, Copy, Debug, PartialEq, Eq)]
pub struct Unopened {
    /// Those that have another cluster's seal, or none.
    pub other_cluster: u64,
    /// Those without a digest, where there is a key.
    pub no_digest: u64,
    /// Those with a digest that isn't theirs.
    pub wrong_digest: u64,
}

impl Unopened {
    /// No line came yet.
    pub(crate) fn none() -> Unopened
        ensures { unopened_of result ≡ none_unopened }
    {
        Unopened {
            other_cluster: 0,
            no_digest: 0,
            wrong_digest: 0,
        }
    }

    /// The counts after one more line.
    pub(crate) fn with_one(&self, why: Unsealed) -> Unopened
        ensures { unopened_of result ≡ one_unopened why (unopened_of self.now) }
    {
        let Unopened {
            other_cluster,
            no_digest,
            wrong_digest,
        } = *self;
        match why {
            Unsealed::OtherCluster => Unopened {
                other_cluster: other_cluster.saturating_add(1),
                no_digest,
                wrong_digest,
            },
            Unsealed::NoDigest => Unopened {
                other_cluster,
                no_digest: no_digest.saturating_add(1),
                wrong_digest,
            },
            Unsealed::WrongDigest => Unopened {
                other_cluster,
                no_digest,
                wrong_digest: wrong_digest.saturating_add(1),
            },
        }
    }
}
