//! Two nodes that a test carries lines between.
use crate::tests::sites::exchanges::{
    Exchange, Records, asks_waiting, counts, first_astray, new_desks, page_line,
};
use crate::tests::sites::fill_heap::{Filling, TRIES, fill_heap};
use crate::tests::sites::{
    Counted, counts_of, new_node, new_nodes, said_again, take_line, tells, tells_nobody,
};
use linked_list_allocator::LocalHeap;
use shm_model::Answer;
use shm_process::{Desk, Node, Said};
use shm_seal::Seal;
use std::alloc::{AllocError, Allocator, Global};
use std::process::Abort;
use std::test::Fail;

/// The line of the one envelope that was sent, if the node told nobody anything.
fn sent_line<A: Allocator + Copy>(
    alloc: A,
    said: Option<Said<A>>,
) -> Result<String<A>, AllocError> {
    match said {
        Some(said) => said.envelopes(alloc, &Seal::Bare),
        None => Ok(String::new(alloc)),
    }
}

/// Whether the node sends these lines, and no others, on this one.
fn sends(alloc: Global, node: &mut Node, line: &str, sent: &str) -> Result<bool, AllocError> {
    let said = take_line(alloc, node, line.as_bytes())?;
    Ok(sent_line(alloc, said)?.as_str() == sent)
}

/// Whether the owner's byte 5 becomes 7, and its caller is told.
fn stores(alloc: Global, owner: &mut Node) -> Result<bool, AllocError> {
    let stored = take_line(alloc, owner, b"ask 0 a store 0 5 7")?;
    Ok(tells(&stored, "a", Answer::Stored))
}

/// Whether the reader sends its ask for byte 5, and tells its caller nothing.
fn asks(alloc: Global, reader: &mut Node) -> Result<bool, AllocError> {
    let fault = take_line(alloc, reader, b"ask 1 b load 0 5")?;
    let is_told_nobody = tells_nobody(&fault);
    let sent = sent_line(alloc, fault)?;
    Ok(is_told_nobody && sent.as_str() == "env 1 0 1 0 0 ask 0 0 1 read\n")
}

/// What the owner's manager tells the owner on that ask.
const HAND: &str = "env 0 0 2 1 0 hand 0 0 1 read 1";

/// Whether the owner sends that to itself.
fn hands(alloc: Global, owner: &mut Node) -> Result<bool, AllocError> {
    sends(
        alloc,
        owner,
        "env 1 0 1 0 0 ask 0 0 1 read",
        "env 0 0 2 1 0 hand 0 0 1 read 1\n",
    )
}

/// Whether the reader confirms the page that the owner sends it.
fn confirms(alloc: Global, owner: &mut Node, reader: &mut Node) -> Result<bool, AllocError> {
    let lent = take_line(alloc, owner, HAND.as_bytes())?;
    let page = sent_line(alloc, lent)?;
    sends(
        alloc,
        reader,
        page.as_str().trim_end(),
        "env 1 0 4 1 0 confirm 0 0 1\n",
    )
}

/// Whether the caller that waited for byte 5 is told 7.
fn is_told(reader: &mut Node) -> Result<bool, AllocError> {
    let loaded = said_again(reader.again()?);
    Ok(tells(&loaded, "b", Answer::Byte(7)))
}

/// Whether no ask is answered.
fn is_quiet(reader: &mut Node) -> Result<bool, AllocError> {
    Ok(reader.again()?.is_none())
}

/// Whether the reader passes over what the owner sends itself.
fn passes_over(alloc: Global, reader: &mut Node) -> Result<bool, AllocError> {
    Ok(take_line(alloc, reader, HAND.as_bytes())?.is_none())
}

#[test]
fn a_copy_is_lent(rt: HostRuntime) -> Result<(), Fail> {
    let alloc = rt.alloc();
    let mut nodes = new_nodes(alloc, 2)?;
    lend(&rt, alloc, nodes.as_mut_slice())
}

/// The owner stores a byte, and lends the page that it is in to the reader.
fn lend(rt: &impl Abort, alloc: Global, nodes: &mut [Node]) -> Result<(), Fail> {
    let Some((owner, others)) = nodes.split_first_mut() else {
        return Err(Fail::new("no owner"));
    };
    let Some(reader) = others.first_mut() else {
        return Err(Fail::new("no reader"));
    };
    assert!(rt; stores(alloc, owner)?);
    assert!(rt; asks(alloc, reader)?);
    assert!(rt; is_quiet(reader)?, "it waits for what was asked");
    assert!(rt; hands(alloc, owner)?);
    assert!(rt; passes_over(alloc, reader)?);
    assert!(rt; confirms(alloc, owner, reader)?);
    assert!(rt; is_told(reader)?);
    assert!(rt; is_quiet(reader)?, "it was answered");
    assert_eq!(rt; reader.clock(), 5);
    assert_eq!(rt; counts_of(reader), (3, 2, 1, 0));
    Ok(())
}

/// Whether the node makes the step of a load that is tried, and tells its fault. `None`: memory is refused.
fn tells_fault<'a>(heap: &'a LocalHeap, node: &mut Node<&'a LocalHeap>) -> Option<bool> {
    match take_line(heap, node, b"ask 1 b try-load 0 5") {
        Ok(said) => Some(tells(&said, "b", Answer::Fault)),
        Err(_) => None,
    }
}

/// Whether the node makes that step. Where memory is refused it is as before.
fn tries_load<'a>(rt: &impl Abort, heap: &'a LocalHeap, node: &mut Node<&'a LocalHeap>) -> bool {
    match tells_fault(heap, node) {
        Some(is_told) => {
            assert!(rt; is_told);
            true
        }
        None => {
            assert_eq!(rt; counts_of(node), (0, 0, 0, 0));
            false
        }
    }
}

/// How often the load is refused memory while the hole in a full heap widens.
fn refusals<'a>(
    rt: &impl Abort,
    heap: &'a LocalHeap,
    node: &mut Node<&'a LocalHeap>,
    filling: &mut Filling<'a>,
) -> Option<usize> {
    'tries: for tries in 0..TRIES {
        if tries_load(rt, heap, node) {
            return Some(tries);
        }
        drop(filling.pop());
    }
    None
}

/// How often a node in a full heap is refused memory before it makes the step, and what it counts then.
fn until_made(rt: &impl Abort, alloc: Global) -> Result<(Option<usize>, Counted), AllocError> {
    let heap = LocalHeap::new(alloc, 1 << 16)?;
    let mut node = new_node(&heap, 2, 1)?;
    let mut filling = fill_heap(alloc, &heap)?;
    let tries = refusals(rt, &heap, &mut node, &mut filling);
    Ok((tries, counts_of(&node)))
}

#[test]
fn each_growth_is_refused_in_turn(rt: HostRuntime) -> Result<(), Fail> {
    let (tries, counts) = until_made(&rt, rt.alloc())?;
    let Some(tries) = tries else {
        return Err(Fail::new("no step was made"));
    };
    assert!(rt;
        tries > 1,
        "the place to wait and what is sent were refused too"
    );
    assert_eq!(rt; counts, (1, 1, 0, 0));
    Ok(())
}

/// Site 1 asks for a byte of site 0's page. Beside that, each is told a line that isn't for it.
#[test]
fn an_access_is_answered_when_its_page_comes(rt: HostRuntime) -> Result<(), Fail> {
    let alloc = rt.alloc();
    let mut desks = new_desks(alloc, 2)?;
    let lent = page_line(
        alloc,
        "env 0 0 2 1 0 hand 0 0 1 read 1\nenv 0 1 3 2 0 page 0 0 1 read AAAAAAAH",
        1363,
        "AA==\n",
    )?;
    let exchanges = for_one_byte(lent.as_str());
    assert_eq!(rt; first_astray(desks.as_mut_slice(), &exchanges)?, None);
    assert_eq!(rt; counts(desks.as_slice(), 0), Some((3, 3, 2, 0)));
    assert_eq!(rt; asks_waiting(desks.as_slice(), 1), Some(0));
    Ok(())
}

/// What brings the byte to site 1, where the owner tells this of its page.
fn for_one_byte(lent: &str) -> [Exchange<'_>; 5] {
    [
        Exchange {
            site: 0,
            lines: "ask 0 a store 0 5 7\nnot a line of ours\nask 1 b lo",
            output: "tell 0 a stored\n",
            records: Records::All(b"step 1 ask 0 a store 0 5 7\n"),
        },
        Exchange {
            site: 1,
            lines: "ask 1 b load 0 5\nask 1 c show 0 0\n",
            output: "env 1 0 1 0 0 ask 0 0 1 read\ntell 1 c page Nil/0\n",
            records: Records::All(b"step 1 ask 1 b load 0 5\n"),
        },
        Exchange {
            site: 0,
            lines: "ad 0 5\n",
            output: "",
            records: Records::All(b""),
        },
        Exchange {
            site: 0,
            lines: "env 1 0 1 0 0 ask 0 0 1 read\nenv 0 0 2 1 0 hand 0 0 1 read 1\n",
            output: lent,
            records: Records::All(
                b"step 2 env 1 0 1 0 0 ask 0 0 1 read\nstep 3 env 0 0 2 1 0 hand 0 0 1 read 1\n",
            ),
        },
        Exchange {
            site: 1,
            lines: lent,
            output: "env 1 0 4 1 0 confirm 0 0 1\ntell 1 b byte 7\n",
            records: Records::Ending(b"\nstep 5 ask 1 b load 0 5\n"),
        },
    ]
}

/// Whether the desk records these lines of an ask that waits, and of a restart after it.
fn records_restart(desk: &mut Desk, entries: &[u8]) -> Result<bool, AllocError> {
    desk.record(b"first\n")?;
    desk.take(b"ask 1 b load 0 5\n")?;
    let has_waited = desk.node().asks_waiting() == 1;
    if desk.node().clock() < u64::MAX {
        desk.restart()?;
    }
    Ok(has_waited && desk.node().asks_waiting() == 0 && desk.entries() == entries)
}

#[test]
fn a_restart_is_recorded_and_asks_that_wait_are_forgotten(rt: HostRuntime) -> Result<(), Fail> {
    let mut desks = new_desks(rt.alloc(), 2)?;
    let Some(desk) = desks.last_mut() else {
        return Err(Fail::new("no desk"));
    };
    let entries = b"first\nstep 1 ask 1 b load 0 5\nstep 2 restart\n".as_slice();
    assert!(rt; records_restart(desk, entries)?);
    Ok(())
}
