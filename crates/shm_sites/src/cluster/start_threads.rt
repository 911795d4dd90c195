//! Starts the threads of a cluster: first all that takes memory, and then the threads.
ghost use Rattle.std.specs.Prelude.{◌≡◌, ◌≤◌, ◌<◌, ◌+◌, IfOk, OnOk, vec_capacity, vec_len};
ghost use Rattle.shm_sites.specs.Cluster.Sites.{sites_of};

use crate::cluster::Cluster;
use crate::cluster::shared_state::Shared;
use crate::cluster::site_thread::{Worker, work};
use crate::cluster::start_error::StartFault;
use crate::cluster::step_gate::Gate;
use crate::cluster::stop_threads::end;
use crate::cluster::unstarted_sites::{Opened, open};
use shm_place::{PAGES, Sites};
use std::alloc::{AllocError, Allocator};
use std::sync::{Arc, Wait};
use std::thread;
use std::thread::Threads;

impl<A: Allocator + Copy + Send + Sync + 'static> Cluster<A> {
    /// Starts these sites, each in its box and its thread, where segment 0 has this number of pages and is attached everywhere, to read and
    /// write, as attachment 0. The network draws its losses and repeats from this seed. Where memory is refused, no thread was started.
    pub fn start<R: Threads + Wait + Copy + Send + 'static, G: Gate + Send + Sync + Drop + 'static>(
        rt: &R,
        alloc: A,
        sites: Sites,
        pages: u32,
        seed: u64,
        gate: G,
    ) -> Result<Cluster<A>, StartFault>
        requires from { 1 ≤ pages }
        requires to { pages ≤ PAGES }
        ensures { IfOk result (λ cluster. sites_of cluster ≡ sites) }
    {
        let Ok((mut cluster, workers, gate)) = ready(alloc, sites, pages, gate) else {
            return Err(StartFault::OutOfMemory);
        };
        match cluster.start_threads(rt, workers, &gate, seed) {
            Ok(()) => Ok(cluster),
            Err(fault) => {
                cluster.give_up(rt);
                Err(fault)
            }
        }
    }

    /// Starts a thread for each worker, as far as threads are given.
    fn start_threads<
        R: Threads + Wait + Copy + Send + 'static,
        G: Gate + Send + Sync + Drop + 'static,
    >(
        &mut self,
        rt: &R,
        workers: Vec<Worker<A>, A>,
        gate: &Arc<G, A>,
        seed: u64,
    ) -> Result<(), StartFault>
        requires room { vec_len self.old.threads + vec_len workers ≤ vec_capacity self.old.threads }
        ensures { sites_of self.new ≡ sites_of self.old }
    {
        'workers: for worker in workers {
            if let Err(fault) = self.start_thread(rt, worker, gate, seed) {
                return Err(fault);
            }
        }
        Ok(())
    }

    fn start_thread<
        R: Threads + Wait + Copy + Send + 'static,
        G: Gate + Send + Sync + Drop + 'static,
    >(&mut self, rt: &R, worker: Worker<A>, gate: &Arc<G, A>, seed: u64) -> Result<(), StartFault>
        requires room { vec_len self.old.threads < vec_capacity self.old.threads }
        ensures sites { sites_of self.new ≡ sites_of self.old }
        ensures room { vec_capacity self.new.threads ≡ vec_capacity self.old.threads }
        ensures more { OnOk result (vec_len self.new.threads ≡ vec_len self.old.threads + 1) }
    {
        let Ok((shared, gate)) = self.share(gate) else {
            return Err(StartFault::OutOfMemory);
        };
        let own = *rt;
        let Ok(thread) = thread::spawn(rt, move || work(&own, &shared, &*gate, worker, seed)) else {
            return Err(StartFault::NoThread);
        };
        self.threads.push_reserved(thread);
        Ok(())
    }

    /// One more thread's handle to the shared part. It takes no memory, and fails only where no number can count the handles.
    fn share<G: Drop>(
        &self,
        gate: &Arc<G, A>,
    ) -> Result<(Arc<Shared<A>, A>, Arc<G, A>), AllocError> {
        let shared = Arc::try_clone(&self.shared)?;
        let gate = Arc::try_clone(gate)?;
        Ok((shared, gate))
    }

    /// Ends the threads that were started.
    pub(crate) fn give_up<R: Threads + Wait>(self, rt: &R) {
        let Cluster { shared, threads } = self;
        let _ = end(rt, &shared, threads);
    }
}

/// A cluster without threads and with room for them, each thread's part, and the gate that the threads pass.
pub(crate) fn ready<A: Allocator + Copy, G: Drop>(
    alloc: A,
    sites: Sites,
    pages: u32,
    gate: G,
) -> Result<(Cluster<A>, Vec<Worker<A>, A>, Arc<G, A>), AllocError>
    requires from { 1 ≤ pages }
    requires to { pages ≤ PAGES }
    ensures sites { IfOk result (λ ready. sites_of ready.0 ≡ sites) }
    ensures room { IfOk result (λ ready. vec_len ready.0.threads + vec_len ready.1 ≤ vec_capacity ready.0.threads) }
{
    let gate = Arc::new(alloc, gate)?;
    let Opened { posts, workers } = open(alloc, sites, pages)?;
    let shared = Arc::new(alloc, Shared { posts, alloc })?;
    let threads = Vec::with_capacity(alloc, workers.len())?;
    Ok((Cluster { shared, threads }, workers, gate))
}
