//! All that is measured of a workload.
ghost use Rattle.std.specs.Prelude.{◌≡◌, ◌++◌, IfOk, OnOk};
ghost use Rattle.shm_simulate.specs.Measures as said;

use crate::measure::Measure;
use crate::page_message::MessageKind;
use crate::workload_lines::counted;
use shm_lines::WorkloadAccess;
use std::alloc::{AllocError, Global};

/// What is measured of these accesses to so many pages: of each line, of each kind of messages, of each page, and ticks.
pub(crate) fn measures(
    alloc: Global,
    pages: u32,
    accesses: &[WorkloadAccess],
) -> Result<Vec<Measure>, AllocError>
    ensures { IfOk result (λ all. all.items ≡ said.measures_of pages accesses.now) }
{
    let mut all = Vec::new(alloc);
    push_lines(&mut all, accesses)?;
    push_kinds(&mut all)?;
    push_pages(&mut all, pages)?;
    all.push(Measure::Ticks)?;
    Ok(all)
}

fn push_lines(all: &mut Vec<Measure>, accesses: &[WorkloadAccess]) -> Result<(), AllocError>
    ensures { OnOk result (all.new.items ≡ all.old.items ++ said.line_measures 2 accesses.now) }
{
    let mut line = 2;
    'accesses: for _access in accesses {
        all.push(Measure::Faults(line))?;
        all.push(Measure::Rounds(line))?;
        line = counted(line);
    }
    Ok(())
}

fn push_kinds(all: &mut Vec<Measure>) -> Result<(), AllocError>
    ensures { OnOk result (all.new.items ≡ all.old.items ++ said.kind_measures) }
{
    all.push(Measure::Messages(MessageKind::Ask))?;
    all.push(Measure::Messages(MessageKind::Clear))?;
    all.push(Measure::Messages(MessageKind::Cleared))?;
    all.push(Measure::Messages(MessageKind::Hand))?;
    all.push(Measure::Messages(MessageKind::Page))?;
    all.push(Measure::Messages(MessageKind::Confirm))?;
    Ok(())
}

fn push_pages(all: &mut Vec<Measure>, pages: u32) -> Result<(), AllocError>
    ensures { OnOk result (all.new.items ≡ all.old.items ++ said.page_measures pages) }
{
    'pages: for page in 0..pages {
        all.push(Measure::PageMessages(page))?;
        all.push(Measure::Moves(page))?;
        all.push(Measure::PageFaults(page))?;
    }
    Ok(())
}
