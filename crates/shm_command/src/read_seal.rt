//! The seal that the words of a site ask for.
ghost use Rattle.std.specs.Prelude.{ℕ, List, [], ◌≡◌, ◌<◌, length, IfErr, IfOk, OnOk};
ghost use Rattle.shm_seal.specs.Hmac.{block_of};
ghost use Rattle.shm_seal.specs.KeyOf.{key_of};
ghost use Rattle.shm_seal.specs.SealOf.{seal_of};
ghost use Rattle.shm_command.specs.Sealed.{IsKey, IsKeyFault, IsSealOf, IsUnsealed, unfed};
ghost use Rattle.shm_command.specs.declared.seal_error.SealFault.TheVariants.{NoKey};

use crate::args::SealWords;
use crate::script_file::read_script_file;
use crate::seal_error::SealFault;
use shm_seal::{ClusterName, Key, Seal};
use std::rt::Files;

/// The seal of a cluster of this name, with the key that lies in this file.
pub(crate) fn read_seal<R: AllocGlobal + Files>(
    rt: &R,
    words: SealWords<'_>,
) -> Result<Seal, SealFault>
    ensures ok { IfOk result (λ seal. IsSealOf words.entry (seal_of seal)) }
    ensures err { IfErr result (IsUnsealed words.entry) }
{
    let SealWords { cluster, key } = words;
    match cluster {
        Some(name) => match ClusterName::new(name.as_bytes()) {
            Some(name) => match key {
                Some(file) => match read_key(rt, file) {
                    Ok(key) => Ok(Seal::Keyed(name, key)),
                    Err(fault) => Err(fault),
                },
                None => Ok(Seal::Named(name)),
            },
            None => Err(SealFault::BadName),
        },
        None => match key {
            Some(_) => Err(SealFault::NoName),
            None => Ok(Seal::Bare),
        },
    }
}

/// The key that lies in the file of this name.
fn read_key<R: AllocGlobal + Files>(rt: &R, name: &str) -> Result<Key, SealFault>
    ensures ok { IfOk result (λ key. IsKey (key_of key)) }
    ensures err { IfErr result IsKeyFault }
{
    match read_script_file(rt, name) {
        Ok(bytes) => key_of_file(bytes.as_slice()),
        Err(fault) => Err(SealFault::Unread(fault)),
    }
}

/// The key of a file that has these bytes: they, less a line feed at their end.
fn key_of_file(bytes: &[u8]) -> Result<Key, SealFault>
    ensures ok { IfOk result (λ key. key_of key ≡ block_of (unfed bytes.now)) }
    ensures some { OnOk result (0 < length (unfed bytes.now)) }
    ensures none { IfErr result (λ fault. (fault ≡ NoKey) × (unfed bytes.now ≡ [])) }
    ensures err { IfErr result IsKeyFault }
{
    let bytes = without_feed(bytes);
    if bytes.is_empty() {
        return Err(SealFault::NoKey);
    }
    Ok(Key::new(bytes))
}

/// The bytes, less a line feed at their end.
fn without_feed(bytes: &[u8]) -> &[u8]
    ensures { result.now ≡ unfed bytes.now }
{
    match bytes.strip_suffix(b"\n".as_slice()) {
        Some(front) => front,
        None => bytes,
    }
}
