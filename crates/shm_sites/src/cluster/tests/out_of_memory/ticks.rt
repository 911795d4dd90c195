//! Ticks for which a channel has no memory, and those of a client that waits.
use super::{HEAP, Still, fill_heap_but, opened_in};
use crate::ClientFault;
use crate::cluster::channel_message::Mail;
use linked_list_allocator::LocalHeap;
use shm_logs::Asked;
use shm_place::SiteId;
use std::alloc::{AllocError, Global};
use std::sync::Wait;
use std::test::Fail;

/// How many ticks each of three sites has.
type Ticks = [usize; 3];

/// The site whose channel has no memory, the ticks that all have then, and those after another tick with memory.
const TICKS: [(usize, Ticks, Ticks); 3] = [
    (0, [0, 1, 1], [1, 2, 2]),
    (1, [1, 0, 1], [2, 1, 2]),
    (2, [1, 1, 0], [2, 2, 1]),
];

/// One site's channel has no memory: that is told, and the other sites have their ticks. With memory all have one.
#[test]
fn the_other_sites_have_their_ticks(rt: HostRuntime) -> Result<(), Fail> {
    for (refused, without, with) in TICKS {
        let (first, second) = tick_twice(&rt, rt.alloc(), refused)?;
        assert_eq!(rt; first, (false, without));
        assert_eq!(rt; second, (true, with));
    }
    Ok(())
}

/// Whether all sites could be told of a tick, and the ticks that they then have: where this site's channel has no memory, and then once
/// more with memory.
fn tick_twice<R: Wait>(
    rt: &R,
    alloc: Global,
    refused: usize,
) -> Result<((bool, Ticks), (bool, Ticks)), Fail> {
    let heap = LocalHeap::new(alloc, HEAP)?;
    let still = opened_in(&heap, 3)?;
    make_room(rt, &still, refused);
    let first = ticked_without_memory(rt, alloc, &heap, &still);
    let second = (still.cluster.tick_all(rt).is_ok(), ticks(&still));
    drop(still);
    Ok((first?, second))
}

fn ticked_without_memory<R: Wait>(
    rt: &R,
    alloc: Global,
    heap: &LocalHeap,
    still: &Still<'_>,
) -> Result<(bool, Ticks), AllocError> {
    let blocks = fill_heap_but(alloc, heap, 0)?;
    let told = still.cluster.tick_all(rt).is_ok();
    drop(blocks);
    Ok((told, ticks(still)))
}

/// Each other channel has brought a message, and keeps the room that it had for it.
fn make_room<R: Wait>(rt: &R, still: &Still<'_>, refused: usize) {
    for (number, worker) in still.workers.iter().enumerate() {
        if number == refused {
            continue;
        }
        if let Some(post) = still.cluster.shared.posts.get(number) {
            let _ = post.mail.send(rt, Mail::Tick);
        }
        let _ = worker.mail.try_recv(rt);
    }
}

fn ticks(still: &Still<'_>) -> Ticks {
    let mut ticks = [0; 3];
    for (ticks, worker) in ticks.iter_mut().zip(still.workers.iter()) {
        *ticks = worker.mail.len();
    }
    ticks
}

/// An offset in page 1, which site 1 manages.
const THERE: u32 = 4096;

/// How many tries the client has here, with more than a hundred ticks among them. A load or store of a user has a hundred times as many, which
/// take a crowded machine a minute.
const TRIES: u32 = 10_000;

/// Nobody hears what is sent. A client that waits until it gives up has made one step, and each channel has one message: site 1's the Ask,
/// the others' a tick.
#[test]
fn one_who_waits_fills_neither_log_nor_channels(rt: HostRuntime) -> Result<(), Fail> {
    let heap = LocalHeap::new(rt.alloc(), HEAP)?;
    let still = opened_in(&heap, 3)?;
    let waited = wait_in_vain(&rt, &still);
    drop(still);
    let (fault, steps, ticks) = waited?;
    assert_eq!(rt; fault, Some(ClientFault::GaveUp));
    assert_eq!(rt; steps, 1);
    assert_eq!(rt; ticks, [1, 1, 1]);
    Ok(())
}

/// What a load of page 1 at site 0 fails with, how many steps site 0 has made then, and how many messages each channel has.
fn wait_in_vain<R: Wait>(
    rt: &R,
    still: &Still<'_>,
) -> Result<(Option<ClientFault>, usize, Ticks), Fail> {
    let Ok(client) = still.cluster.client(SiteId(0)) else {
        return Err(Fail::new("no site 0"));
    };
    let asked = Asked::Load {
        at: 0,
        offset: THERE,
    };
    let fault = client.serve_within(rt, asked, TRIES).err();
    let held = client.post.site.lock(rt);
    Ok((fault, held.log().len(), ticks(still)))
}
