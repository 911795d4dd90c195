//! Blocks: many loads that one caller asks for at once, and is told of once.
use crate::tests::new_node;
use crate::tests::sites::exchanges::{
    Exchange, Records, counts, first_astray, new_desks, page_line,
};
use crate::tests::sites::fill_heap::{Filling, TRIES, fill_heap};
use crate::tests::sites::{Counted, counts_of, new_nodes, said_again, take_line, tells};
use linked_list_allocator::LocalHeap;
use shm_model::Answer;
use shm_process::{Counts, Node, Unopened};
use shm_wire::parse_line;
use std::alloc::{AllocError, Global};
use std::process::Abort;
use std::test::Fail;

/// Nothing was counted.
const NOTHING: Counts = Counts {
    unopened: Unopened {
        other_cluster: 0,
        no_digest: 0,
        wrong_digest: 0,
    },
    received: 0,
    sent: 0,
    journal: 0,
    since: 0,
};

/// The bytes are 7, 255, 0 and 16.
#[test]
fn a_block_is_told_once_and_recorded_in_one_entry(rt: HostRuntime) -> Result<(), Fail> {
    let mut desks = new_desks(rt.alloc(), 2)?;
    let exchanges = [
        Exchange {
            site: 0,
            lines: "ask 0 a store 0 5 7\nask 0 a store 0 6 255\nask 0 a store 0 8 16\n",
            output: "tell 0 a stored\ntell 0 a stored\ntell 0 a stored\n",
            records: Records::Ending(b"\nstep 3 ask 0 a store 0 8 16\n"),
        },
        Exchange {
            site: 0,
            lines: "ask 0 b read 0 5 4\n",
            output: "tell 0 b block B/8AEA==\n",
            records: Records::All(b"step 4 ask 0 b read 0 5 4\n"),
        },
    ];
    assert_eq!(rt; first_astray(desks.as_mut_slice(), &exchanges)?, None);
    assert_eq!(rt; counts(desks.as_slice(), 0), Some((7, 4, 0, 0)));
    Ok(())
}

/// Page 0 is at site 0 and ends with 1 and 2, page 1 is at site 1 and begins with 3, 0 and 5. Site 2 has neither.
#[test]
fn a_block_over_two_pages_is_told_when_both_came(rt: HostRuntime) -> Result<(), Fail> {
    let alloc = rt.alloc();
    let mut desks = new_desks(alloc, 3)?;
    let first = page_line(
        alloc,
        "env 0 0 3 2 0 hand 0 0 1 read 2\nenv 0 2 4 3 0 page 0 0 1 read ",
        1364,
        "AAABAg==\n",
    )?;
    let second = page_line(
        alloc,
        "env 1 1 9 2 0 hand 0 1 1 read 2\nenv 1 2 10 3 0 page 0 1 1 read AwAF",
        1364,
        "AA==\n",
    )?;
    let exchanges = over_two_pages(first.as_str(), second.as_str());
    assert_eq!(rt; first_astray(desks.as_mut_slice(), &exchanges)?, None);
    assert_eq!(rt; counts(desks.as_slice(), 2), Some((9, 3, 2, 0)));
    Ok(())
}

/// What brings both pages to site 2, where the owners tell this of them.
fn over_two_pages<'a>(first: &'a str, second: &'a str) -> [Exchange<'a>; 7] {
    [
        Exchange {
            site: 0,
            lines: "ask 0 a store 0 4094 1\nask 0 a store 0 4095 2\n",
            output: "tell 0 a stored\ntell 0 a stored\n",
            records: Records::Ending(b"\nstep 2 ask 0 a store 0 4095 2\n"),
        },
        Exchange {
            site: 1,
            lines: "ask 1 a store 0 4096 3\nask 1 a store 0 4098 5\n",
            output: "tell 1 a stored\ntell 1 a stored\n",
            records: Records::Ending(b"\nstep 2 ask 1 a store 0 4098 5\n"),
        },
        Exchange {
            site: 2,
            lines: "ask 2 b read 0 4094 5\n",
            output: "env 2 0 1 0 0 ask 0 0 1 read\n",
            records: Records::All(b"step 1 ask 2 b load 0 4094\n"),
        },
        Exchange {
            site: 0,
            lines: "env 2 0 1 0 0 ask 0 0 1 read\nenv 0 0 3 2 0 hand 0 0 1 read 2\n",
            output: first,
            records: Records::Ending(b"\nstep 4 env 0 0 3 2 0 hand 0 0 1 read 2\n"),
        },
        Exchange {
            site: 2,
            lines: first,
            output: "env 2 0 5 1 0 confirm 0 0 1\nenv 2 1 8 4 0 ask 0 1 2 read\n",
            records: Records::Ending(b"\nstep 6 ask 2 b read 0 4094 3\n"),
        },
        Exchange {
            site: 1,
            lines: "env 2 1 8 4 0 ask 0 1 2 read\nenv 1 1 9 2 0 hand 0 1 1 read 2\n",
            output: second,
            records: Records::Ending(b"\nstep 10 env 1 1 9 2 0 hand 0 1 1 read 2\n"),
        },
        Exchange {
            site: 2,
            lines: second,
            output: "env 2 1 11 5 0 confirm 0 1 1\ntell 2 b block AQIDAAU=\n",
            records: Records::Ending(b"\nstep 12 ask 2 b read 0 4096 3\n"),
        },
    ]
}

/// Through an attachment that isn't there.
#[test]
fn a_block_that_is_refused_is_told_so_once(rt: HostRuntime) -> Result<(), Fail> {
    let alloc = rt.alloc();
    let mut nodes = new_nodes(alloc, 1)?;
    let Some(node) = nodes.first_mut() else {
        return Err(Fail::new("no node"));
    };
    assert!(rt; is_refused_once(alloc, node)?);
    Ok(())
}

/// Whether its caller is told so, of one step.
fn is_refused_once(alloc: Global, node: &mut Node) -> Result<bool, AllocError> {
    let joins = take_line(alloc, node, b"ask 0 b read 1 0 4")?.is_none();
    let said = said_again(node.again()?);
    let is_told = tells(&said, "b", Answer::Refused(9));
    Ok(joins && is_told && node.steps() == 1 && node.asks_waiting() == 0)
}

/// 64 loads wait for one page.
fn crowd(alloc: Global, node: &mut Node) -> Result<(), AllocError> {
    'asks: for _ in 0..64 {
        drop(take_line(alloc, node, b"ask 1 a load 0 2")?);
    }
    Ok(())
}

fn is_line(told: &Option<String>, line: &str) -> bool {
    match told {
        Some(told) => told.as_str() == line,
        None => false,
    }
}

/// Whether the node tells this at once of the line.
fn is_told_at_once(
    alloc: Global,
    node: &Node,
    line: &[u8],
    told: &str,
) -> Result<bool, AllocError> {
    match parse_line(alloc, line)? {
        Some(read) => Ok(is_line(&node.line_at_once(NOTHING, &read)?, told)),
        None => Ok(false),
    }
}

/// Whether a block is told that it finds no room, and passed over.
fn finds_no_room(alloc: Global, node: &mut Node) -> Result<bool, AllocError> {
    let block = b"ask 1 b read 0 2 1".as_slice();
    let is_told = is_told_at_once(alloc, node, block, "tell 1 b waiting")?;
    let is_passed_over = take_line(alloc, node, block)?.is_none();
    Ok(is_told && is_passed_over)
}

#[test]
fn a_block_that_finds_no_room_is_told_so_and_passed_over(rt: HostRuntime) -> Result<(), Fail> {
    let alloc = rt.alloc();
    let mut nodes = new_nodes(alloc, 2)?;
    let Some(node) = nodes.last_mut() else {
        return Err(Fail::new("no node"));
    };
    crowd(alloc, node)?;
    assert!(rt; finds_no_room(alloc, node)?);
    assert_eq!(rt; counts_of(node), (64, 64, 1, 64));
    Ok(())
}

/// Whether the ask for a page's bytes joins those that wait, and makes no step. `None`: memory is refused.
fn joins<'a>(heap: &'a LocalHeap, node: &mut Node<&'a LocalHeap>) -> Option<bool> {
    match take_line(heap, node, b"ask 0 b read 0 0 4096") {
        Ok(said) => Some(said.is_none()),
        Err(_) => None,
    }
}

/// Whether the node takes that ask. Where memory is refused it is as before.
fn takes<'a>(rt: &impl Abort, heap: &'a LocalHeap, node: &mut Node<&'a LocalHeap>) -> bool {
    match joins(heap, node) {
        Some(joins) => {
            assert!(rt; joins, "a block that joins makes no step");
            true
        }
        None => {
            assert_eq!(rt; counts_of(node), (0, 0, 0, 0));
            false
        }
    }
}

/// How often the ask is refused memory while the hole in a full heap widens.
fn refusals<'a>(
    rt: &impl Abort,
    heap: &'a LocalHeap,
    node: &mut Node<&'a LocalHeap>,
    filling: &mut Filling<'a>,
) -> Option<usize> {
    'tries: for tries in 0..TRIES {
        if takes(rt, heap, node) {
            return Some(tries);
        }
        drop(filling.pop());
    }
    None
}

/// How often a node in a full heap is refused memory before it takes the ask, and what it counts then.
fn until_taken(rt: &impl Abort, alloc: Global) -> Result<(Option<usize>, Counted), AllocError> {
    let heap = LocalHeap::new(alloc, 1 << 16)?;
    let mut node = new_node(&heap, 2, 0)?;
    let mut filling = fill_heap(alloc, &heap)?;
    let tries = refusals(rt, &heap, &mut node, &mut filling);
    Ok((tries, counts_of(&node)))
}

/// The bytes need a hole of 4,096: 256 times 16.
#[test]
fn each_growth_of_a_block_is_refused_in_turn(rt: HostRuntime) -> Result<(), Fail> {
    let (tries, counts) = until_taken(&rt, rt.alloc())?;
    let Some(tries) = tries else {
        return Err(Fail::new("the block never joined"));
    };
    assert!(rt;
        tries > 256,
        "the place among those that wait was refused too"
    );
    assert_eq!(rt; counts, (0, 1, 0, 1));
    Ok(())
}
