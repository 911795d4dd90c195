//! How a process begins with what it found in its journal.
ghost use Rattle.std.specs.Prelude.{◌≡◌, ◌⊎◌, ◌<◌, false, true, IfErr, IfOk, Ok};
ghost use Rattle.shm_model.specs.Basics.{greatest};
ghost use Rattle.shm_journal.specs.HeaderOf.{header_of};
ghost use Rattle.shm_journal.specs.DeskFrom.{desk_from, greeting_from, with_header};
ghost use Rattle.shm_journal.specs.declared.process_start.OpeningFault.TheVariants as fault;
ghost use Rattle.shm_process.specs.Desk.{restarted};
ghost use Rattle.shm_process.specs.DeskOf.{desk_of};
ghost use Rattle.shm_process.specs.Node.{is_late};
ghost use Rattle.shm_process.specs.NodeOf.{node_of};
ghost use Rattle.shm_seal.specs.SealOf.{seal_of};

use crate::journal_header::Header;
use shm_process::{Desk, Node, Start};
use shm_seal::Seal;
use std::alloc::{AllocError, Allocator};
use thiserror::Error;

/// Why a process can't begin.
#[derive(Clone, Copy, Debug, PartialEq, Eq, Error)]
pub enum OpeningFault {
    /// An allocation was refused.
    #[error("out of memory")]
    OutOfMemory,
    /// There is no clock for the site's restart.
    #[error("journal: the clock has ended")]
    ClockEnd,
}

/// A desk of lines under this seal, whose node begins with an empty journal, or with one that led to it: it has said how the header's site was
/// begun, and has the journal's header recorded, or a restart. Nothing is kept or told yet.
pub fn open_desk<A: Allocator + Copy>(
    alloc: A,
    header: Header,
    seal: Seal,
    is_new: bool,
    node: Node<A>,
    start: Start,
) -> Result<Desk<A>, OpeningFault>
    ensures desk { IfOk result (λ desk. desk_of desk ≡ desk_from (header_of header) (seal_of seal) is_new (node_of node) start) }
    ensures fault { IfErr result (λ f. (f ≡ fault.OutOfMemory) ⊎ ((f ≡ fault.ClockEnd) × (is_new ≡ false) × (is_late (node_of node) 0 ≡ true))) }
{
    if is_new {
        return in_memory(new_desk(alloc, header, seal, node, start));
    }
    if node.clock() == u64::MAX {
        return Err(OpeningFault::ClockEnd);
    }
    in_memory(restarted_desk(alloc, header, seal, node, start))
}

/// The header is recorded.
fn new_desk<A: Allocator + Copy>(
    alloc: A,
    header: Header,
    seal: Seal,
    node: Node<A>,
    start: Start,
) -> Result<Desk<A>, AllocError>
    ensures { IfOk result (λ desk. desk_of desk ≡ with_header (header_of header) (greeting_from (header_of header) (seal_of seal) (node_of node) start)) }
{
    let mut desk = Desk::greeting(alloc, seal, node, header.opening(), start)?;
    let line = format!(in alloc; "{header}\n")?;
    desk.record(line.as_bytes())?;
    Ok(desk)
}

/// Records the restart, and gathers what it sends.
fn restarted_desk<A: Allocator + Copy>(
    alloc: A,
    header: Header,
    seal: Seal,
    node: Node<A>,
    start: Start,
) -> Result<Desk<A>, AllocError>
    requires { (node_of node).clock < greatest }
    ensures { IfOk result (λ desk. desk_of desk ≡ restarted (greeting_from (header_of header) (seal_of seal) (node_of node) start)) }
{
    let mut desk = Desk::greeting(alloc, seal, node, header.opening(), start)?;
    desk.restart()?;
    Ok(desk)
}

fn in_memory<A: Allocator + Copy>(
    desk: Result<Desk<A>, AllocError>,
) -> Result<Desk<A>, OpeningFault>
    ensures ok { IfOk result (λ made. desk ≡ Ok made) }
    ensures err { IfErr result (λ f. f ≡ fault.OutOfMemory) }
{
    match desk {
        Ok(desk) => Ok(desk),
        Err(_) => Err(OpeningFault::OutOfMemory),
    }
}
