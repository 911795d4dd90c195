//! A site as a process that goes on from what it kept.
ghost use Rattle.std.specs.Prelude.{◌≡◌, ◌≤◌, [], option_map};
ghost use Rattle.shm_process.specs.NodeOf.{node_of};
ghost use Rattle.shm_site.specs.Site.{site_of};
ghost use Rattle.shm_wire.specs.TagOf.{tag_text};

use crate::node::Node;
use shm_site::Site;
use shm_wire::{Mapping, Tag};
use std::alloc::Allocator;

impl<A: Allocator + Copy> Node<A> {
    /// The site as it goes on after so many steps, the last of which had this clock: with the caller of its outstanding segment call, and
    /// with what its machine maps. No ask waits, and no line was counted.
    pub fn restored(
        alloc: A,
        site: Site<A>,
        clock: u64,
        steps: u64,
        caller: Option<Tag>,
        mapped: Vec<Mapping, A>,
    ) -> Node<A>
        requires { steps ≤ clock }
        ensures { node_of result ≡ record {
          sites = site.sites;
          me = site.me;
          site = site_of site;
          clock = clock;
          steps = steps;
          taken = 0;
          passed = 0;
          caller = option_map tag_text caller;
          waiting = [];
          mapped = mapped.items;
        } }
    {
        let sites = site.sites();
        let me = site.me();
        Node {
            site,
            sites,
            me,
            clock,
            steps,
            taken: 0,
            passed: 0,
            caller,
            waiting: Vec::new(alloc),
            mapped,
            alloc,
        }
    }

    /// The tag of the caller whose segment call is outstanding.
    pub fn caller(&self) -> Option<Tag>
        ensures { option_map tag_text result ≡ (node_of self.now).caller }
    {
        self.caller
    }

    /// The pages that the site's machine maps.
    pub fn mapped(&self) -> &[Mapping]
        ensures { result.now ≡ (node_of self.now).mapped }
    {
        self.mapped.as_slice()
    }
}
