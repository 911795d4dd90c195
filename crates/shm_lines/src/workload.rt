//! A whole workload.
ghost use Rattle.std.specs.Prelude.{◌≡◌, ◌≢◌, ◌≤◌, ◌⊎◌, Ok, Err, length, IfErr, IfOk};
ghost use Rattle.shm_lines.specs.Workload.{open_line, parts_of, with_size, workload_of, accesses_on};
ghost use Rattle.shm_lines.specs.declared.workload_error.WorkloadFault.TheVariants as cause;

use crate::parse_workload_line::{access_line, first_line, open_line};
use crate::split_at;
use crate::workload_access::WorkloadAccess;
use crate::workload_error::WorkloadFault;
use shm_place::{PAGES, Sites};
use std::alloc::{Allocator, Global};

/// The accesses of all callers.
#[derive(Drop)]
pub struct Workload<A: Allocator = Global> {
    /// How many pages segment 0 has, 1 to 256.
    pub pages: u32,
    /// The accesses, in the order of the lines, the first of which is line 2.
    pub accesses: Vec<WorkloadAccess, A>,
}

/// Reads a workload for this many sites.
pub fn parse_workload<A: Allocator>(
    alloc: A,
    sites: Sites,
    bytes: &[u8],
) -> Result<Workload<A>, WorkloadFault>
    ensures ok { IfOk result (λ workload. workload_of sites bytes.now ≡ Ok (record { size = workload.pages; accesses = workload.accesses.items })) }
    ensures size { IfOk result (λ workload. (1 ≤ workload.pages) × (workload.pages ≤ PAGES)) }
    ensures err { IfErr result (λ fault. (fault ≡ cause.OutOfMemory) ⊎ (workload_of sites bytes.now ≡ Err fault)) }
{
    let (first, rest) = split_at(bytes, b'\n');
    let Some(rest) = rest else {
        return Err(open_line(1, first));
    };
    match first_line(first) {
        Err(fault) => Err(fault),
        Ok(size) => further_lines(alloc, sites, size, rest),
    }
}

/// Reads the lines after the first.
fn further_lines<A: Allocator>(
    alloc: A,
    sites: Sites,
    size: u32,
    bytes: &[u8],
) -> Result<Workload<A>, WorkloadFault>
    requires { size ≤ PAGES }
    ensures size { IfOk result (λ workload. workload.pages ≡ size) }
    ensures ok { IfOk result (λ workload. with_size size (accesses_on sites size 2 (parts_of bytes.now))
        ≡ Ok (record { size = workload.pages; accesses = workload.accesses.items })) }
    ensures err { IfErr result (λ fault. (fault ≡ cause.OutOfMemory) ⊎ (accesses_on sites size 2 (parts_of bytes.now) ≡ Err fault)) }
{
    let mut accesses = Vec::new(alloc);
    let mut rest = bytes;
    'lines: loop {
        let number = accesses.len() as u64 + 2;
        let (line, others) = split_at(rest, b'\n');
        let Some(others) = others else {
            return finish(size, accesses, number, line);
        };
        match access_line(sites, size, number, line) {
            Ok(access) => match accesses.push(access) {
                Ok(()) => {}
                Err(_) => return Err(WorkloadFault::OutOfMemory),
            },
            Err(fault) => return Err(fault),
        }
        rest = others;
    }
}

/// The workload that ends with this, which has no line feed.
fn finish<A: Allocator>(
    size: u32,
    accesses: Vec<WorkloadAccess, A>,
    number: u64,
    rest: &[u8],
) -> Result<Workload<A>, WorkloadFault>
    ensures ok { IfOk result (λ workload. (workload.pages ≡ size) × (workload.accesses ≡ accesses) × (length rest.now ≡ 0)) }
    ensures err { IfErr result (λ fault. (fault ≡ open_line number rest.now) × (length rest.now ≢ 0)) }
{
    if rest.is_empty() {
        return Ok(Workload {
            pages: size,
            accesses,
        });
    }
    Err(open_line(number, rest))
}
