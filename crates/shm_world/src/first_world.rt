//! How worlds begin, and how they are copied.
ghost use Rattle.std.specs.Prelude.{◌≤◌, IfOk};
ghost use Rattle.shm_model.specs.Opening.{opening_of};
ghost use Rattle.shm_model.specs.World as model;
ghost use Rattle.shm_world.specs.World.{StandsFor};

use crate::members::Members;
use crate::network::Network;
use crate::world::World;
use shm_model::Opening;
use shm_place::{MAX_FRAMES, PAGES, Sites};
use std::alloc::{AllocError, Allocator};

impl<A: Allocator + Copy> World<A> {
    /// A world in which nothing has happened.
    pub fn new(alloc: A, sites: Sites) -> Result<World<A>, AllocError>
        ensures { IfOk result (λ world. StandsFor world (model.opened (model.New sites))) }
    {
        // Reading it tells the proof its limits.
        let _count = sites.count();
        World::begin(alloc, &Opening::new(sites))
    }

    /// The same with segment 0 of this number of pages, which every site has attached, to read and write, as attachment 0.
    pub fn preset(alloc: A, sites: Sites, pages: u32) -> Result<World<A>, AllocError>
        requires from { 1 ≤ pages }
        requires to { pages ≤ PAGES }
        ensures { IfOk result (λ world. StandsFor world (model.opened (model.Preset sites pages))) }
    {
        // Reading it tells the proof its limits.
        let _count = sites.count();
        World::begin(alloc, &Opening::preset(sites, pages))
    }

    /// The same with at most this many pages held as copies at each site.
    pub fn framed(alloc: A, sites: Sites, pages: u32, frames: u32) -> Result<World<A>, AllocError>
        requires from { 1 ≤ pages }
        requires to { pages ≤ PAGES }
        requires one { 1 ≤ frames }
        requires most { frames ≤ MAX_FRAMES }
        ensures { IfOk result (λ world. StandsFor world (model.opened (model.Framed sites pages frames))) }
    {
        // Reading it tells the proof its limits.
        let _count = sites.count();
        World::begin(alloc, &Opening::framed(sites, pages, frames))
    }

    /// A world that begins so. Frames count only beside pages of segment 0.
    pub fn begin(alloc: A, opening: &Opening) -> Result<World<A>, AllocError>
        requires { model.IsOpening (opening_of opening.now) }
        ensures { IfOk result (λ world. StandsFor world (model.opened (opening_of opening.now))) }
    {
        let members = Members::begin(alloc, *opening)?;
        Ok(World {
            members,
            network: Network::new(alloc),
            alloc,
        })
    }

    /// An equal world; both go on alone.
    pub fn copy(&self) -> Result<World<A>, AllocError>
        ensures { (w : model.World) → StandsFor self.now w → IfOk result (λ copy. StandsFor copy w) }
    {
        let members = self.members.copy(self.alloc)?;
        let network = self.network.copy()?;
        Ok(World {
            members,
            network,
            alloc: self.alloc,
        })
    }
}
