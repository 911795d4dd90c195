//! A batch is written behind those that a file has.
ghost use Rattle.std.specs.Prelude.{◌≡◌, ◌++◌, ◌∷◌, [], ℕ, length, take, IfOk, OnErr, OnOk};
ghost use Rattle.std.specs.Io.KnownBytes.{Appends};
ghost use Rattle.shm_batches.specs.Chain.{batch_text, with_batch};
ghost use Rattle.shm_batches.specs.ChainOf.{chain_of};

use crate::batch_error::BatchFault;
use crate::chain::{Chain, Mark};
use shm_text::write_whole;
use std::alloc::{AllocError, Allocator};
use std::io::Write;

/// Writes these lines, with their line feeds, and their mark. Answers how many bytes that took. Nothing is written before there is memory for
/// all of it. Where writing fails the chain stays as it was, and a front of the batch may have been written.
pub fn write_batch<A: Allocator + Copy, W: Write>(
    alloc: A,
    writer: &mut W,
    chain: &mut Chain,
    text: &[u8],
) -> Result<u64, BatchFault>
    ensures all { OnOk result (Appends (W.contents writer.old) (W.contents writer.new) (batch_text (chain_of chain.old) text.now)) }
    ensures chain { OnOk result (chain_of chain.new ≡ with_batch (chain_of chain.old) text.now) }
    ensures count { IfOk result (λ count. count ≡ length (batch_text (chain_of chain.old) text.now)) }
    ensures front { OnErr result ((n : ℕ) × Appends (W.contents writer.old) (W.contents writer.new) (take n (batch_text (chain_of chain.old) text.now))) }
    ensures same { OnErr result (chain.new ≡ chain.old) }
{
    let (batch, next) = match batch_of(alloc, chain, text) {
        Ok(made) => made,
        Err(fault) => return Err(fault),
    };
    match write_whole(writer, batch.as_slice()) {
        Ok(()) => {}
        Err(_) => return Err(BatchFault::WriteFault),
    }
    *chain = next;
    Ok(batch.len() as u64)
}

#[tactic(auto, unfolding(crate::specs::Chain::batch_text))]
/// The next batch, which has these lines, and the chain with it.
fn batch_of<A: Allocator + Copy>(
    alloc: A,
    chain: &Chain,
    text: &[u8],
) -> Result<(Vec<u8, A>, Chain), BatchFault>
    ensures batch { IfOk result (λ made. made.0.items ≡ batch_text (chain_of chain.now) text.now) }
    ensures chain { IfOk result (λ made. chain_of made.1 ≡ with_batch (chain_of chain.now) text.now) }
{
    let mark = match chain.mark(alloc, text) {
        Ok(mark) => mark,
        Err(fault) => return Err(fault),
    };
    let Mark { line, chain: next } = mark;
    match joined(alloc, text, line.as_bytes()) {
        Ok(batch) => Ok((batch, next)),
        Err(_) => Err(BatchFault::OutOfMemory),
    }
}

/// The lines, the mark behind them, and a line feed.
fn joined<A: Allocator + Copy>(alloc: A, text: &[u8], mark: &[u8]) -> Result<Vec<u8, A>, AllocError>
    ensures { IfOk result (λ batch. batch.items ≡ text.now ++ (mark.now ++ 10 ∷ [])) }
{
    let mut batch = Vec::new(alloc);
    batch.extend_from_slice(text)?;
    batch.extend_from_slice(mark)?;
    batch.push(b'\n')?;
    Ok(batch)
}
