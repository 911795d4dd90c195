//! Ends the threads of a cluster.
ghost use Rattle.std.specs.Prelude.{◌≡◌, IfOk, vec_len};
ghost use Rattle.shm_sites.specs.Cluster.Sites.{sites_of};

use crate::cluster::Cluster;
use crate::cluster::channel_message::Mail;
use crate::cluster::shared_state::{Post, Shared};
use shm_logs::SiteLog;
use std::alloc::{AllocError, Allocator};
use std::sync::{Arc, Wait};
use std::thread::{JoinHandle, Threads};

/// The most attempts to tell a thread to stop, where memory is refused.
const TRIES: u32 = 1_000;

impl<A: Allocator + Copy> Cluster<A> {
    /// Ends the threads, and gives the logs of all sites in their order. Envelopes still in a channel are lost. Where memory is refused it
    /// gives no log, and a thread that couldn't be told to stop ends with the program.
    pub fn stop<R: Threads + Wait>(self, rt: &R) -> Result<Vec<SiteLog<A>, A>, AllocError>
        ensures { IfOk result (λ logs. vec_len logs ≡ sites_of self) }
    {
        let Cluster { shared, threads } = self;
        end(rt, &shared, threads)?;
        match Arc::into_inner(shared) {
            Some(shared) => logs(shared),
            None => Err(AllocError),
        }
    }
}

/// Tells each thread to stop, and joins those that got the message.
pub(crate) fn end<R: Threads + Wait, A: Allocator + Copy>(
    rt: &R,
    shared: &Shared<A>,
    threads: Vec<JoinHandle<()>, A>,
) -> Result<(), AllocError> {
    let mut untold = false;
    'threads: for (post, thread) in shared.posts.iter().zip(threads) {
        if tell(rt, post) {
            thread.join(rt);
        } else {
            untold = true;
        }
    }
    if untold { Err(AllocError) } else { Ok(()) }
}

/// Tells the thread to stop, and answers whether it could.
fn tell<R: Wait, A: Allocator + Copy>(rt: &R, post: &Post<A>) -> bool {
    'tries: for _ in 0..TRIES {
        if post.mail.send(rt, Mail::Stop).is_ok() {
            return true;
        }
    }
    false
}

fn logs<A: Allocator + Copy>(shared: Shared<A>) -> Result<Vec<SiteLog<A>, A>, AllocError>
    ensures { IfOk result (λ logs. vec_len logs ≡ vec_len shared.posts) }
{
    let Shared { posts, alloc } = shared;
    let mut logs = Vec::with_capacity(alloc, posts.len())?;
    'sites: for post in posts {
        let Post { site, mail, .. } = post;
        drop(mail);
        logs.push_reserved(site.into_inner().into_log());
    }
    Ok(logs)
}
