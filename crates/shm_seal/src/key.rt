//! A key, made as long as a block of the hash function.
ghost use Rattle.std.specs.Prelude.{◌≡◌, ◌≤◌, length};
ghost use Rattle.shm_seal.specs.Hmac.{block_of, key_of_block};
ghost use Rattle.shm_seal.specs.KeyOf.{key_of};

use sha2::{Digest, Sha256};

/// How many bytes a block of SHA-256 has.
pub(crate) const BLOCK_BYTES: usize = 64;

/// A key as HMAC-SHA-256 uses it: 64 bytes.
#[derive(Clone, Copy)]
pub struct Key {
    pub(crate) block: [u8; BLOCK_BYTES],
}

impl Key {
    /// The key of these bytes: itself with zeros behind it, or the digest of one that is longer than 64 bytes.
    #[tactic(auto, unfolding(crate::specs::Hmac::block_of))]
    pub fn new(bytes: &[u8]) -> Key
        ensures { key_of result ≡ block_of bytes.now }
    {
        if bytes.len() > BLOCK_BYTES {
            let digest: [u8; 32] = Sha256::digest(bytes);
            return filled(&digest);
        }
        filled(bytes)
    }
}

/// The key of these bytes, with zeros behind them.
#[tactic(auto, unfolding(crate::specs::Hmac::key_of_block))]
fn filled(bytes: &[u8]) -> Key
    requires { length bytes.now ≤ 64 }
    ensures { key_of result ≡ key_of_block bytes.now }
{
    let mut block = [0; BLOCK_BYTES];
    block[..bytes.len()].copy_from_slice(bytes);
    Key { block }
}
