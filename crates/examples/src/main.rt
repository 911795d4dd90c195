//! Four examples of how the crates are called, each in a module of its own: a world that is stepped by hand (`world`), sites under a network
//! with latencies (`latency`), sites in boxes whose logs are audited (`boxes`), and callers in threads that share a page (`counter`). The word
//! of the command line names one of them; where there is none, all run, in this order.
#![tactic(auto)]

mod boxes;
mod counter;
mod latency;
mod world;

use anyhow::{Result, bail};
use std::env;

fn main(rt: HostRuntime) -> Result<()> {
    let alloc = rt.alloc();
    let words: Vec<String> = env::args(&rt)?.collect(alloc)?;
    if words.len() > 2 {
        bail!("one word at most: world, latency, boxes or counter");
    }
    let mut out = rt.stdout();
    match words.get(1).map_or("all", String::as_str) {
        "world" => world::run(alloc, &mut out),
        "latency" => latency::run(alloc, &mut out),
        "boxes" => boxes::run(alloc, &mut out),
        "counter" => counter::run(&rt, alloc, &mut out),
        "all" => {
            world::run(alloc, &mut out)?;
            latency::run(alloc, &mut out)?;
            boxes::run(alloc, &mut out)?;
            counter::run(&rt, alloc, &mut out)
        }
        word => bail!("there is no example {word}: world, latency, boxes or counter"),
    }
}
