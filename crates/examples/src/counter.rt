//! Three callers that share a counter page. Each runs in a thread of its own and at a site of its own, and adds 1 to a byte of its own
//! again and again, so the page goes from site to site. When all have ended, the bytes are loaded and all receipts audited.
mod audit_run;
mod callers;

use anyhow::{Result, bail};
use audit_run::audit;
use callers::{Told, count_all, load_all};
use shm_model::Answer;
use shm_place::Sites;
use shm_sites::{Cluster, OpenGate, Receipt};
use std::alloc::Global;
use std::io::Write;
use std::sync::Wait;
use std::thread::Threads;

/// From this the network draws what it loses and repeats.
const SEED: u64 = 11;

/// Lets the callers count, prints what they counted, and audits it.
pub fn run<R, W>(rt: &R, alloc: Global, out: &mut W) -> Result<()>
where
    R: Threads + Wait + Copy + Send + Sync + 'static,
    W: Write,
{
    let Ok(sites) = Sites::new(3) else {
        bail!("there are 1 to 16 sites");
    };
    let cluster = match Cluster::start(rt, alloc, sites, 1, SEED, OpenGate) {
        Ok(cluster) => cluster,
        Err(fault) => bail!("no cluster: {fault}"),
    };
    let counted = count_all(rt, alloc, sites, cluster.shared());
    let loaded = load_all(rt, alloc, sites, cluster.shared());
    let logs = cluster.stop(rt)?;
    let mut callers = Vec::new(alloc);
    for told in counted? {
        callers.push(receipts(told)?)?;
    }
    let loaded = receipts(loaded)?;
    print(out, &loaded)?;
    callers.push(loaded)?;
    audit(alloc, sites, &logs, &callers)?;
    writeln!(out, "audit yes")?;
    Ok(())
}

/// A caller's receipts, if it finished.
fn receipts(told: Told) -> Result<Vec<Receipt>> {
    match told {
        Ok(receipts) => Ok(receipts),
        Err(fault) => bail!("a caller ended: {fault}"),
    }
}

/// Prints the bytes in these receipts, and their sum.
fn print<W: Write>(out: &mut W, loaded: &[Receipt]) -> Result<()> {
    let mut sum = 0u64;
    for receipt in loaded {
        let Answer::Byte(byte) = receipt.answer() else {
            bail!("no byte was loaded");
        };
        writeln!(out, "a caller added {byte}")?;
        sum = sum.saturating_add(u64::from(byte));
    }
    writeln!(out, "the sum is {sum}")?;
    Ok(())
}
