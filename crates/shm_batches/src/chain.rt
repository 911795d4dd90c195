//! The marks of batches, each of which names the digest of the one before.
ghost use Rattle.std.specs.Prelude.{◌≡◌, ◌+◌, ◌-◌, ◌<◌, ◌∷◌, ◌++◌, ◌^◌, drop, length, take, None, Some, if◌then◌else◌, string_bytes, option_map, IfNone, IfOk, IfSome};
ghost use Rattle.shm_journal.specs.LinesOf.{Unended};
ghost use Rattle.std.specs.Str.{bytes_eq};
ghost use Rattle.shm_batches.specs.Chain.{digest_end, digest_of, is_marked, mark_front, mark_line, unmarked, with_batch};
ghost use Rattle.shm_batches.specs.ChainOf.{chain_of};
ghost use Rattle.shm_batches.specs.Chain as spec;

use crate::batch_error::BatchFault;
use memchr::memchr;
use sha2::{Digest, Sha256};
use std::alloc::{Allocator, Global};

/// How many bytes a digest takes at the end of a mark: a blank, and two digits for each of its 32 bytes.
const DIGEST_BYTES: usize = 65;

/// How many batches there are, and the digest of the last one.
#[derive(Clone, Copy, Debug, PartialEq, Eq)]
pub struct Chain {
    number: u64,
    digest: [u8; 32],
}

/// The mark of a batch.
#[derive(Drop)]
pub struct Mark<A: Allocator + Copy = Global> {
    /// Its line, without a line feed.
    pub line: String<A>,
    /// The chain with this batch.
    pub chain: Chain,
}

impl Chain {
    /// No batch yet.
    pub fn new() -> Chain
        ensures { chain_of result ≡ unmarked }
    {
        Chain {
            number: 0,
            digest: [0; 32],
        }
    }

    /// How many batches there are.
    pub fn number(&self) -> u64
        ensures { result ≡ (chain_of self.now).number }
    {
        self.number
    }

    /// The mark of the next batch, which has these lines, with their line feeds.
    #[tactic(auto, unfolding(crate::specs::Chain::mark_line, crate::specs::Chain::with_batch))]
    pub fn mark<A: Allocator + Copy>(&self, alloc: A, text: &[u8]) -> Result<Mark<A>, BatchFault>
        ensures line { IfOk result (λ mark. string_bytes mark.line ≡ mark_line (chain_of self.now) text.now) }
        ensures chain { IfOk result (λ mark. chain_of mark.chain ≡ with_batch (chain_of self.now) text.now) }
    {
        let front = match self.front(alloc) {
            Ok(front) => front,
            Err(fault) => return Err(fault),
        };
        let chain = self.with_batch(text, front.as_bytes());
        let Ok(digest) = hex::encode(alloc, chain.digest.as_slice()) else {
            return Err(BatchFault::OutOfMemory);
        };
        match format!(in alloc; "{front} {digest}") {
            Ok(line) => Ok(Mark { line, chain }),
            Err(_) => Err(BatchFault::OutOfMemory),
        }
    }

    /// The chain with the next batch, which has these lines, if this line is its mark.
    pub fn next<A: Allocator + Copy>(
        &self,
        alloc: A,
        text: &[u8],
        line: &[u8],
    ) -> Result<Option<Chain>, BatchFault>
        ensures { IfOk result (λ next. option_map chain_of next ≡ (if bytes_eq line.now (mark_line (chain_of self.now) text.now)
            then Some (with_batch (chain_of self.now) text.now) else None)) }
    {
        let front = match self.front(alloc) {
            Ok(front) => front,
            Err(fault) => return Err(fault),
        };
        if !line.starts_with(front.as_bytes()) {
            return Ok(None);
        }
        let mark = match self.mark(alloc, text) {
            Ok(mark) => mark,
            Err(fault) => return Err(fault),
        };
        if line != mark.line.as_bytes() {
            return Ok(None);
        }
        Ok(Some(mark.chain))
    }

    /// What stands in the next mark before its digest.
    #[tactic(auto, unfolding(crate::specs::Chain::mark_front))]
    fn front<A: Allocator + Copy>(&self, alloc: A) -> Result<String<A>, BatchFault>
        ensures front { IfOk result (λ front. string_bytes front ≡ mark_front (chain_of self.now)) }
        ensures below { IfOk result (λ front. self.now.number < 2 ^ 64 - 1) }
    {
        let Some(number) = self.number.checked_add(1) else {
            return Err(BatchFault::NumberEnd);
        };
        let Ok(previous) = hex::encode(alloc, self.digest.as_slice()) else {
            return Err(BatchFault::OutOfMemory);
        };
        match format!(in alloc; "durable {number} {previous}") {
            Ok(front) => Ok(front),
            Err(_) => Err(BatchFault::OutOfMemory),
        }
    }

    /// The chain with the next batch, which has these lines, and in whose mark this stands before the digest.
    #[tactic(auto, unfolding(crate::specs::Chain::digest_of))]
    fn with_batch(&self, text: &[u8], front: &[u8]) -> Chain
        requires below { self.now.number < 2 ^ 64 - 1 }
        requires front { front.now ≡ mark_front (chain_of self.now) }
        ensures number { result.number ≡ self.now.number + 1 }
        ensures digest { result.digest ≡ digest_of (chain_of self.now) text.now }
    {
        let mut digest = Sha256::new();
        digest.update(text);
        digest.update(front);
        Chain {
            number: self.number + 1,
            digest: digest.finalize(),
        }
    }
}

/// Checks that this line is a mark whose digest is that of the entries at the end of these lines and of itself, whatever its number is and the
/// digest before it.
pub(crate) fn marks(text: &[u8], line: &[u8]) -> bool
    ensures { result ≡ is_marked text.now line.now }
{
    if !begins_as_mark(line) {
        return false;
    }
    let at = line.len().saturating_sub(DIGEST_BYTES);
    is_digest(entries_at_end(text), &line[..at], &line[at..])
}

/// The whole lines at the end of a text that may all be a journal's.
fn entries_at_end(text: &[u8]) -> &[u8]
    ensures { result.now ≡ spec.entries_at_end text.now }
{
    let mut from = 0;
    let mut at = 0;
    'lines: for _ in 0..text.len() {
        let Some(len) = line_feed(&text[at..]) else {
            return &text[from..at];
        };
        let is_entry = begins_as_entry(&text[at..at + len]);
        at += len + 1;
        from = begin(is_entry, from, at);
    }
    &text[from..at]
}

/// Where the entries begin: where they did, or here.
fn begin(is_entry: bool, from: usize, at: usize) -> usize
    ensures { result ≡ (if is_entry then from else at) }
{
    if is_entry { from } else { at }
}

/// The number of bytes before the first line feed.
fn line_feed(text: &[u8]) -> Option<usize>
    ensures cut { IfSome result (λ len. text.now ≡ take len text.now ++ 10 ∷ drop (len + 1) text.now) }
    ensures unended { IfSome result (λ len. Unended (take len text.now)) }
    ensures within { IfSome result (λ len. len < length text.now) }
    ensures none { IfNone result (Unended text.now) }
{
    memchr(b'\n', text)
}

/// Checks that a line begins as one of a journal's.
fn begins_as_entry(line: &[u8]) -> bool
    ensures { result ≡ spec.begins_as_entry line.now }
{
    line.starts_with(b"step ".as_slice())
        || line.starts_with(b"state ".as_slice())
        || line.starts_with(b"journal ".as_slice())
}

#[tactic(auto, unfolding(crate::specs::Chain::digest_end))]
/// Checks that this is a blank and the digest of both texts, one behind the other.
fn is_digest(text: &[u8], front: &[u8], end: &[u8]) -> bool
    ensures { result ≡ bytes_eq end.now (digest_end text.now front.now) }
{
    let mut digest = Sha256::new();
    digest.update(text);
    digest.update(front);
    let digest: [u8; 32] = digest.finalize();
    let mut wanted = [b' '; DIGEST_BYTES];
    let written = hex::encode_to_slice(digest.as_slice(), &mut wanted[1..]);
    written.is_ok() && end == wanted.as_slice()
}

/// Checks that a line begins as a mark does.
pub(crate) fn begins_as_mark(line: &[u8]) -> bool
    ensures { result ≡ spec.begins_as_mark line.now }
{
    line.starts_with(b"durable ".as_slice())
}
