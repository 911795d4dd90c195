mod block_loads;
mod block_stores;
mod exchanges;
mod fill_heap;
mod mappings;
mod two_nodes;

use crate::tests::new_node;
use shm_model::Answer;
use shm_process::{Again, Node, Said};
use shm_wire::parse_line;
use std::alloc::{AllocError, Allocator, Global};

/// A node for each of so many sites.
fn new_nodes(alloc: Global, sites: u32) -> Result<Vec<Node>, AllocError> {
    let mut nodes = Vec::new(alloc);
    for me in 0..sites {
        let node = new_node(alloc, sites, me)?;
        nodes.push(node)?;
    }
    Ok(nodes)
}

/// The node takes this line.
fn take_line<A: Allocator + Copy>(
    alloc: A,
    node: &mut Node<A>,
    line: &[u8],
) -> Result<Option<Said<A>>, AllocError> {
    match parse_line(alloc, line)? {
        Some(read) => node.take(read),
        None => {
            node.pass_over();
            Ok(None)
        }
    }
}

/// How many steps a node made, how many lines it took and passed over, and how many asks wait.
type Counted = (u64, u64, u64, usize);

/// What the node counts.
fn counts_of<A: Allocator + Copy>(node: &Node<A>) -> Counted {
    (
        node.steps(),
        node.lines_taken(),
        node.lines_passed(),
        node.asks_waiting(),
    )
}

/// What is said of a step of an ask that waited.
fn said_again<A: Allocator + Copy>(again: Option<Again<A>>) -> Option<Said<A>> {
    let Again { said, .. } = again?;
    Some(said)
}

/// Whether a step was made of which no caller is told.
fn tells_nobody<A: Allocator + Copy>(said: &Option<Said<A>>) -> bool {
    match said {
        Some(said) => said.tag.is_none(),
        None => false,
    }
}

/// Whether a caller is told this answer under this tag.
fn tells<A: Allocator + Copy>(said: &Option<Said<A>>, tag: &str, answer: Answer) -> bool {
    match said {
        Some(said) => match &said.tag {
            Some(told) => told.as_str() == tag && said.answer == answer,
            None => false,
        },
        None => false,
    }
}
