//! HMAC-SHA-256, as RFC 2104 and FIPS 198-1 have it.
ghost use Rattle.std.specs.Prelude.{◌≡◌, ◌++◌};
ghost use Rattle.shm_seal.specs.Hmac.{hmac, padded};
ghost use Rattle.shm_seal.specs.KeyOf.{key_of};

use crate::key::{BLOCK_BYTES, Key};
use sha2::{Digest, Sha256};

/// The byte that each byte of a key meets in the inner pad.
const INNER: u8 = 0x36;
/// The same in the outer pad.
const OUTER: u8 = 0x5c;

impl Key {
    /// HMAC-SHA-256 under this key of two pieces of a text, one behind the other.
    #[tactic(auto, unfolding(crate::specs::Hmac::hmac))]
    pub fn digest(&self, front: &[u8], rest: &[u8]) -> [u8; 32]
        ensures { result ≡ hmac (key_of self.now) (front.now ++ rest.now) }
    {
        let mut inner = Sha256::new();
        inner.update(&pad(&self.block, INNER));
        inner.update(front);
        inner.update(rest);
        let digest: [u8; 32] = inner.finalize();
        let mut outer = Sha256::new();
        outer.update(&pad(&self.block, OUTER));
        outer.update(&digest);
        outer.finalize()
    }
}

/// The block, of which each byte has met this one.
fn pad(block: &[u8; BLOCK_BYTES], byte: u8) -> [u8; BLOCK_BYTES]
    ensures { result ≡ padded byte block.now }
{
    let mut pad = [0; BLOCK_BYTES];
    'bytes: for at in 0..BLOCK_BYTES {
        pad[at] = block[at] ^ byte;
    }
    pad
}
