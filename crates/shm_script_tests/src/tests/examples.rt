//! The scripts of `examples/` at the top of the repository, which users read, and the outputs beside them.

mod crossing_writers;
mod frames;
mod going_back;
mod lost_page;
mod manager_restarts;
mod owner_restarts;
mod read_fault;
mod reader_becomes_writer;
mod segments;
mod three_copies;
mod two_sites;

use super::replay_script;
use std::alloc::Global;
use std::process::Abort;

/// A script, and what is told of its lines.
struct Example {
    name: &'static str,
    script: &'static [u8],
    text: &'static [u8],
}

fn plays(rt: &impl Abort, alloc: Global, example: &Example) {
    let (result, text) = replay_script(alloc, example.script);
    assert_eq!(rt; text.as_slice(), example.text, "{}", example.name);
    assert!(rt; result.is_ok(), "{}", example.name);
}

#[test]
fn examples_print_what_stands_beside_them(rt: HostRuntime) {
    let alloc = rt.alloc();
    plays(&rt, alloc, &crossing_writers::EXAMPLE);
    plays(&rt, alloc, &frames::EXAMPLE);
    plays(&rt, alloc, &going_back::EXAMPLE);
    plays(&rt, alloc, &lost_page::EXAMPLE);
    plays(&rt, alloc, &manager_restarts::EXAMPLE);
    plays(&rt, alloc, &owner_restarts::EXAMPLE);
    plays(&rt, alloc, &read_fault::EXAMPLE);
    plays(&rt, alloc, &reader_becomes_writer::EXAMPLE);
    plays(&rt, alloc, &segments::EXAMPLE);
    plays(&rt, alloc, &three_copies::EXAMPLE);
    plays(&rt, alloc, &two_sites::EXAMPLE);
}
