//! The bytes that a reader remembers.
ghost use Rattle.std.specs.Prelude.{◌≡◌, ◌≤◌, [], length, IfSome};
ghost use Rattle.memchr.specs.Find.{is_byte, places};

use crate::split_at;
use memchr::{memchr_iter, memrchr};

/// The most bytes that are kept of a line that isn't ended.
const LINE: usize = 256;

/// The most bytes that are kept.
const KEPT: usize = 8448;

/// The last bytes of a text, from the beginning of a line on.
#[derive(Drop)]
pub struct KeptLines {
    /// The number of the line with which they begin.
    first: u64,
    bytes: [u8; KEPT],
    len: usize,
    ghost within: { len ≤ 8448 },
}

impl KeptLines {
    /// Nothing yet.
    pub fn new() -> KeptLines {
        KeptLines {
            first: 1,
            bytes: [0; KEPT],
            len: 0,
        }
    }

    /// Forgets the lines that are ended, and keeps these bytes. Without bytes, as at the end of the input, it forgets nothing.
    pub fn keep(&mut self, block: &[u8])
        ensures { block.now ≡ [] → self.new ≡ self.old }
    {
        if block.is_empty() {
            return;
        }
        self.forget();
        self.append(block);
    }

    /// Keeps the front of the line that isn't ended, and nothing else.
    fn forget(&mut self) {
        let held = &self.bytes[..self.len];
        let ended = line_feeds(held) as u64;
        let start = open_from(held);
        let count = (self.len - start).min(LINE);
        self.bytes.copy_within(start..start + count, 0);
        self.len = count;
        self.first = self.first.saturating_add(ended);
    }

    fn append(&mut self, block: &[u8]) {
        let count = block.len().min(KEPT - self.len);
        self.bytes[self.len..self.len + count].copy_from_slice(&block[..count]);
        self.len += count;
    }

    /// The front of the line of this number.
    pub fn line(&self, number: u64) -> Option<&[u8]>
        ensures { IfSome result (λ line. length line.now ≤ 256) }
    {
        let ended = number.checked_sub(self.first)?;
        let mut rest = &self.bytes[..self.len];
        for _ in 0..ended {
            let (_, others) = split_at(rest, b'\n');
            rest = others?;
        }
        let (line, _) = split_at(rest, b'\n');
        Some(&line[..line.len().min(LINE)])
    }
}

/// Finds where the last line begins, the one that isn't ended.
fn open_from(bytes: &[u8]) -> usize
    ensures { result ≤ length bytes.now }
{
    match memrchr(b'\n', bytes) {
        Some(at) => at + 1,
        None => 0,
    }
}

fn line_feeds(bytes: &[u8]) -> usize
    ensures { result ≡ length (places (is_byte 10) bytes.now) }
{
    memchr_iter(b'\n', bytes).count()
}
