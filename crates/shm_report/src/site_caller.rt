//! The caller of one site.
ghost use Rattle.std.specs.Prelude.{◌<◌, length, IfErr, IfOk, OnOk};
ghost use Rattle.shm_report.specs.Callers.{Adds, ServesAll};

use crate::call_and_run_error::CallFault;
use shm_lines::WorkloadAccess;
use shm_sites::{Client, ClientFault, Receipt};
use std::alloc::Global;
use std::sync::Wait;

/// Makes all accesses of the client's site, in their order, each until the site has the right to it.
pub(crate) fn call_all<R: Wait>(
    rt: &R,
    alloc: Global,
    client: &Client<'_>,
    accesses: &[WorkloadAccess],
) -> Result<Vec<Receipt>, CallFault>
    ensures served { IfOk result (λ receipts. ServesAll client.now.post.now.number accesses.now receipts.items) }
    ensures place { IfErr result (λ fault. fault.place < length accesses.now) }
{
    let mut receipts = Vec::new(alloc);
    'accesses: for (place, access) in accesses.iter().enumerate() {
        match add(rt, client, access, &mut receipts) {
            Ok(()) => {}
            Err(fault) => return Err(CallFault { place, fault }),
        }
    }
    Ok(receipts)
}

/// Makes the access where it is the site's, and keeps its receipt.
fn add<R: Wait>(
    rt: &R,
    client: &Client<'_>,
    access: &WorkloadAccess,
    receipts: &mut Vec<Receipt>,
) -> Result<(), ClientFault>
    ensures { OnOk result (Adds client.now.post.now.number access.now receipts.old.items receipts.new.items) }
{
    if access.site != client.site() {
        return Ok(());
    }
    if receipts.reserve(1).is_err() {
        return Err(ClientFault::OutOfMemory);
    }
    match client.serve(rt, access.asked) {
        Ok(receipt) => {
            receipts.push_reserved(receipt);
            Ok(())
        }
        Err(fault) => Err(fault),
    }
}
