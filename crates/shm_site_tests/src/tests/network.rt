//! Envelopes that are posted, taken out and put back.
//!
//! Where a test may stop, a network is behind a reference: the proof writes out the drop of a network at each such place.
use super::expect;
use shm_parts::{Envelope, Message, Outbox};
use shm_place::{SegId, SiteId};
use shm_world::Network;
use std::alloc::{AllocError, Global};
use std::process::Abort;
use std::test::Fail;

fn purge(id: u32) -> Envelope {
    Envelope {
        from: SiteId(0),
        to: SiteId(1),
        message: Message::Purge { id: SegId(id) },
    }
}

/// A network that carries a purge of each of these segments.
fn network_with_purges(alloc: Global, from: u32, to: u32) -> Result<Network, AllocError> {
    let mut network = Network::new(alloc);
    post_purges(&mut network, from, to)?;
    Ok(network)
}

fn post_purges(network: &mut Network, from: u32, to: u32) -> Result<(), AllocError> {
    'purges: for id in from..to {
        network.reserve(1)?;
        network.push(purge(id));
    }
    Ok(())
}

/// Whether the envelope of this number is the segment's purge.
fn carries(network: &Network, number: u64, segment: u32) -> bool {
    match network.envelope(number) {
        Some(envelope) => matches!(envelope.message, Message::Purge { id } if id.0 == segment),
        None => false,
    }
}

fn carries_none(network: &Network) -> bool {
    network.envelope(0).is_none()
}

#[test]
fn what_is_lost_is_gone(rt: HostRuntime) -> Result<(), Fail> {
    let mut network = network_with_purges(rt.alloc(), 7, 8)?;
    expect(&rt, lose_beside_copy(&rt, &mut network).is_ok());
    expect(&rt, network.sent() == 1);
    drop(network);
    Ok(())
}

/// Loses the purge of segment 7, which a copy goes on carrying.
fn lose_beside_copy(rt: &impl Abort, network: &mut Network) -> Result<(), AllocError> {
    let copy = network.copy()?;
    expect(rt, carries(network, 0, 7));
    expect(rt, network.lose(0));
    expect(rt, carries_none(network));
    expect(rt, !network.lose(0));
    expect(rt, carries(&copy, 0, 7));
    drop(copy);
    Ok(())
}

#[test]
fn what_is_taken_out_is_put_back(rt: HostRuntime) -> Result<(), Fail> {
    let mut network = network_with_purges(rt.alloc(), 7, 8)?;
    expect(&rt, is_out_meanwhile(&mut network));
    expect(&rt, carries(&network, 0, 7));
    expect(&rt, is_taken_out(&mut network));
    expect(&rt, !is_taken_out(&mut network));
    drop(network);
    Ok(())
}

/// Takes the envelope out and puts it back. Whether it was there, and nowhere meanwhile.
fn is_out_meanwhile(network: &mut Network) -> bool {
    match network.take_out(0) {
        Some((place, envelope)) => {
            let is_out = carries_none(network);
            network.put_back(place, envelope);
            is_out
        }
        None => false,
    }
}

fn is_taken_out(network: &mut Network) -> bool {
    network.take_out(0).is_some()
}

/// Loses nine of ten.
fn lose_most(network: &mut Network) {
    for id in 0..100u32 {
        if id % 10 != 3 {
            network.lose(id as u64);
        }
    }
}

#[test]
fn what_stays_is_found_among_many_that_are_gone(rt: HostRuntime) -> Result<(), Fail> {
    let mut network = network_with_purges(rt.alloc(), 0, 100)?;
    lose_most(&mut network);
    network.sweep();
    expect(&rt, first_astray(&network) == None);
    drop(network);
    Ok(())
}

/// The first segment of a hundred whose purge is there though it was lost, or the other way round.
fn first_astray(network: &Network) -> Option<u32> {
    'segments: for id in 0..100u32 {
        if carries(network, id as u64, id) != (id % 10 == 3) {
            return Some(id);
        }
    }
    None
}
