//! What a site puts behind the lines that it tells, and looks for behind those that come.
ghost use Rattle.std.specs.Prelude.{◌≡◌, ◌++◌, option_map, string_bytes, Ok, Err, MatchResult, OnOk};
ghost use Rattle.std.specs.Str.{bytes_eq};
ghost use Rattle.shm_seal.specs.KeyOf.{key_of};
ghost use Rattle.shm_seal.specs.NameOf.{name_of};
ghost use Rattle.shm_seal.specs.Seal as spec;
ghost use Rattle.shm_seal.specs.Seal.{cluster_of, digest_text, inner_of, name_tail, opened, opened_keyed, opened_named, tail_of, without_end};
ghost use Rattle.shm_seal.specs.SealOf.{seal_of};

use crate::cluster_name::ClusterName;
use crate::key::Key;
use crate::open_line_error::Unsealed;
use std::alloc::{AllocError, Allocator};

/// How many bytes a digest takes at the end of a line: a blank, and two digits for each of its 32 bytes.
const DIGEST_BYTES: usize = 65;

/// How a cluster's lines are sealed.
#[derive(Clone, Copy)]
pub enum Seal {
    /// They aren't: a line stands as it is.
    Bare,
    /// By the cluster's name.
    Named(ClusterName),
    /// By the cluster's name, and a digest under a key that all sites and callers share.
    Keyed(ClusterName, Key),
}

impl Seal {
    /// The cluster's name, if it has one.
    pub fn name(&self) -> Option<ClusterName>
        ensures { option_map name_of result ≡ cluster_of (seal_of self.now) }
    {
        match self {
            Seal::Bare => None,
            Seal::Named(name) => Some(*name),
            Seal::Keyed(name, _key) => Some(*name),
        }
    }

    /// The line that was sealed so, if this one, without its line feed, is one; else why it isn't. A digest isn't compared in constant time.
    #[tactic(auto, unfolding(crate::specs::Seal::opened))]
    pub fn open<'a>(&self, line: &'a [u8]) -> Result<&'a [u8], Unsealed>
        ensures { MatchResult result (λ inner. opened (seal_of self.now) line.now ≡ Ok inner.now) (λ why. opened (seal_of self.now) line.now ≡ Err why) }
    {
        match self {
            Seal::Bare => Ok(line),
            Seal::Named(name) => open_named(name, line),
            Seal::Keyed(name, key) => open_keyed(name, key, line),
        }
    }

    /// Appends to a text what stands behind this line where it is sealed. The text may have the line at its end.
    #[tactic(auto, unfolding(crate::specs::Seal::digest_text, crate::specs::Seal::tail_of))]
    pub fn push_tail<A: Allocator + Copy>(
        &self,
        alloc: A,
        text: &mut String<A>,
        line: &[u8],
    ) -> Result<(), AllocError>
        ensures { OnOk result (string_bytes text.new ≡ string_bytes text.old ++ tail_of (seal_of self.now) line.now) }
    {
        match self {
            Seal::Bare => Ok(()),
            Seal::Named(name) => push_name(text, name),
            Seal::Keyed(name, key) => {
                let tail = format!(in alloc; " @{name}")?;
                let digest = hex::encode(alloc, key.digest(line, tail.as_bytes()).as_slice())?;
                write!(text, "{tail} {digest}")
            }
        }
    }
}

/// Appends a cluster's name, as it stands behind a line.
fn push_name<A: Allocator + Copy>(
    text: &mut String<A>,
    name: &ClusterName,
) -> Result<(), AllocError>
    ensures { OnOk result (string_bytes text.new ≡ string_bytes text.old ++ name_tail (name_of name.now)) }
{
    write!(text, " @{name}")
}

#[tactic(auto, unfolding(crate::specs::Seal::opened_named))]
fn open_named<'a>(name: &ClusterName, line: &'a [u8]) -> Result<&'a [u8], Unsealed>
    ensures { MatchResult result (λ inner. opened_named (name_of name.now) line.now ≡ Ok inner.now) (λ why. opened_named (name_of name.now) line.now ≡ Err why) }
{
    match before_name(name, line) {
        Some(inner) => Ok(inner),
        None => Err(Unsealed::OtherCluster),
    }
}

#[tactic(auto, unfolding(crate::specs::Seal::opened_keyed, crate::specs::Seal::opened_text))]
fn open_keyed<'a>(name: &ClusterName, key: &Key, line: &'a [u8]) -> Result<&'a [u8], Unsealed>
    ensures { MatchResult result (λ inner. opened_keyed (name_of name.now) (key_of key.now) line.now ≡ Ok inner.now)
        (λ why. opened_keyed (name_of name.now) (key_of key.now) line.now ≡ Err why) }
{
    let at = line.len().saturating_sub(DIGEST_BYTES);
    let text = &line[..at];
    let digest = &line[at..];
    match before_name(name, text) {
        Some(inner) if is_digest(key, text, digest) => Ok(inner),
        Some(_) => Err(Unsealed::WrongDigest),
        None => Err(undigested(name, line)),
    }
}

/// Why a line without a digest isn't opened under a key.
#[tactic(auto, unfolding(crate::specs::Seal::undigested))]
fn undigested(name: &ClusterName, line: &[u8]) -> Unsealed
    ensures { result ≡ spec.undigested (name_of name.now) line.now }
{
    match before_name(name, line) {
        Some(_) => Unsealed::NoDigest,
        None => Unsealed::OtherCluster,
    }
}

/// Whether this is a blank and the text's digest.
#[tactic(auto, unfolding(crate::specs::Seal::digest_text))]
fn is_digest(key: &Key, text: &[u8], digest: &[u8]) -> bool
    ensures { result ≡ bytes_eq digest.now (digest_text (key_of key.now) text.now) }
{
    let mut wanted = [b' '; DIGEST_BYTES];
    let written = hex::encode_to_slice(
        key.digest(text, b"".as_slice()).as_slice(),
        &mut wanted[1..],
    );
    written.is_ok() && digest == wanted.as_slice()
}

/// What stands before the cluster's name, where that is at the line's end.
fn before_name<'a>(name: &ClusterName, line: &'a [u8]) -> Option<&'a [u8]>
    ensures { option_map (λ front. front.now) result ≡ inner_of (name_of name.now) line.now }
{
    let front = before_end(line, name.as_str().as_bytes())?;
    before_end(front, b" @".as_slice())
}

/// What stands before this end, where the line has it.
fn before_end<'a>(line: &'a [u8], end: &[u8]) -> Option<&'a [u8]>
    ensures { option_map (λ front. front.now) result ≡ without_end line.now end.now }
{
    if line.len() < end.len() {
        return None;
    }
    let at = line.len() - end.len();
    if &line[at..] != end {
        return None;
    }
    Some(&line[..at])
}
