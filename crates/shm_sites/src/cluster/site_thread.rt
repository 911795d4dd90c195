//! The thread of a site.
ghost use Rattle.std.specs.Prelude.{◌≡◌, length, IfOk};
ghost use Rattle.std.specs.Option.{option_map};
ghost use Rattle.shm_logs.specs.Boxes.Logged.{stamp_of};
ghost use Rattle.shm_logs.specs.Boxes.SiteBox.{box_of};
ghost use Rattle.shm_site.specs.Step.{input_of as input_in};
ghost use Rattle.shm_sites.specs.Cluster.Mail.{next_of, Gives};
ghost use Rattle.shm_sites.specs.Cluster.Posted.{all_sent, sent_at};

use crate::cluster::channel_message::Mail;
use crate::cluster::copy_sent_envelopes::copies_of;
use crate::cluster::lossy_network::{carry, draws_of};
use crate::cluster::posted_envelope::Posted;
use crate::cluster::shared_state::{Post, Shared};
use crate::cluster::step_gate::Gate;
use crossbeam_channel::Receiver;
use shm_logs::{Input, SiteBox, Stamp};
use shm_place::SiteId;
use std::alloc::{AllocError, Allocator, Global};
use std::sync::Wait;

/// The part of a site's thread: the site's number, and its end of the channel.
#[derive(Drop)]
pub(crate) struct Worker<A: Allocator + Copy = Global> {
    pub(crate) site: SiteId,
    pub(crate) mail: Receiver<Mail<A>, A>,
}

/// Makes a step of the site for each message of its channel, until one says stop, and sends the envelopes that pass the network's draws.
/// Where memory is refused for that, it sends nothing of the step.
pub(crate) fn work<R: Wait, A: Allocator + Copy, G: Gate>(
    rt: &R,
    shared: &Shared<A>,
    gate: &G,
    worker: Worker<A>,
    seed: u64,
) {
    let Worker { site, mail } = worker;
    let mut draws = draws_of(seed, site);
    let Some(post) = shared.post_of(site) else {
        return;
    };
    'mail: for _ in rt.forever() {
        let Some((input, source)) = input_of(mail.recv(rt).unwrap_or(Mail::Stop)) else {
            break;
        };
        let Ok(posted) = step(rt, post, gate, site, shared.alloc, input, source) else {
            continue;
        };
        if let Ok(on) = carry(shared.alloc, posted, &mut draws) {
            shared.send_all(rt, on);
        }
    }
}

/// The site's next input, and the step that sent it. `None` at the end.
fn input_of<A: Allocator + Copy>(mail: Mail<A>) -> Option<(Input<A>, Stamp)>
    ensures { option_map (λ next. (input_in next.0, stamp_of next.1)) result ≡ next_of mail }
{
    match mail {
        Mail::Envelope(Posted { envelope, source }) => Some((Input::Deliver(envelope), source)),
        Mail::Tick => Some((Input::Tick, Stamp::NONE)),
        Mail::Stop => None,
    }
}

/// One step under the site's lock, past the gate. The lock is let go before anything is sent.
fn step<R: Wait, A: Allocator + Copy, G: Gate>(
    rt: &R,
    post: &Post<A>,
    gate: &G,
    site: SiteId,
    alloc: A,
    input: Input<A>,
    source: Stamp,
) -> Result<Vec<Posted<A>, A>, AllocError> {
    let mut held = post.site.lock(rt);
    gate.pass(site);
    let posted = give_input(&mut held, alloc, input, source);
    drop(held);
    posted
}

/// Gives the box its input, and answers all that the step sent. Where the box doesn't take it, nothing happens and nothing was sent. It
/// fails where memory was refused for the copies.
pub(crate) fn give_input<A: Allocator + Copy>(
    site: &mut SiteBox<A>,
    alloc: A,
    input: Input<A>,
    source: Stamp,
) -> Result<Vec<Posted<A>, A>, AllocError>
    ensures step { Gives site.old site.new (input_in input) (stamp_of source) }
    ensures sent { IfOk result (λ posted. all_sent posted.items ≡ sent_at (box_of site.new).log (length (box_of site.old).log)) }
{
    match site.take(input, source) {
        Ok(receipt) => copies_of(alloc, site.log(), receipt.index()),
        Err(_) => Ok(Vec::new(alloc)),
    }
}
