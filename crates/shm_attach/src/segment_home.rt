ghost use Rattle.std.specs.Prelude.{◌≡◌, ℕ, ◌<◌, ◌≤◌, ◌==◌, ◌&&◌, not, true, false, IfOk, IfSome, IsSomeAnd, OnErr};
ghost use Rattle.shm_model.specs.Calls.{Fresh, freshness, op_home};

use crate::call_outcome::Done;
use crate::execute_call::execute;
use shm_keys::{SegTable, Segment};
use shm_model::{Op, Reply};
use shm_number::{KeptReply, Recall};
use shm_place::{SegId, SiteId, SiteSet};
use std::alloc::{AllocError, Allocator, Global};
use std::marker::Model;

/// A home of segments: its table, and the last reply to each site. It executes each call once, however often it comes.
#[derive(Drop)]
pub struct Home<A: Allocator + Copy = Global> {
    table: SegTable<A>,
    kept: KeptReply<Reply>,
}

impl<A: Allocator + Copy> Model for Home<A> {
    ghost use Rattle.shm_attach.specs.Home.{Home as Record};

    ghost Value = { Record };

    ghost view = { λ home. record { table = home.table; kept = home.kept } };
}

impl<A: Allocator + Copy> Home<A> {
    ghost use Rattle.shm_keys.specs.Purge.{is_above};
    ghost use Rattle.shm_place.specs.SiteSet.{has, has_none};
    ghost use Rattle.shm_keys.specs.Table.{IsNumbered, is_purged_from, missing_of};
    ghost use Rattle.shm_attach.specs.Home.{MakesSegment, Serves, kept_of, may_destroy};

    /// The home that keeps this table, before any call came.
    pub fn new(table: SegTable<A>) -> Home<A>
        ensures table { result.table ≡ table }
        ensures kept { kept_of result.kept ≡ (λ _. None) }
    {
        Home {
            table,
            kept: KeptReply::new(),
        }
    }

    /// The home that keeps this table, and these as its last replies.
    pub fn restored(table: SegTable<A>, kept: KeptReply<Reply>) -> Home<A>
        ensures { result ≡ record { table = table; kept = kept } }
    {
        Self { table, kept }
    }

    /// The home's table.
    pub fn table(&self) -> &SegTable<A>
        ensures { result.now ≡ self.now.table }
    {
        &self.table
    }

    /// The last reply to each site.
    pub fn kept(&self) -> &KeptReply<Reply>
        ensures { result.now ≡ self.now.kept }
    {
        &self.kept
    }

    /// All segments that the home ever made, the destroyed ones too, in the order of making.
    pub fn segments(&self) -> &[Segment]
        ensures { result.now ≡ self.now.table.segments }
    {
        self.table.segments()
    }

    /// Serves the call of this number. None: the number is old, or 0. Only a `get` that makes a segment takes memory.
    pub fn serve(&mut self, from: SiteId, number: u64, op: Op) -> Result<Option<Done>, AllocError>
        requires site { from < 16 }
        requires home { op_home self.old.table.sites from op ≡ self.old.table.home }
        ensures step { IfOk result (λ done. Serves from number op self.old self.new done) }
        ensures spared { IfOk result (λ served. may_destroy op ≡ false → IfSome served (λ done. done.destroyed ≡ None)) }
        ensures home { self.new.table.home ≡ self.old.table.home }
        ensures sites { self.new.table.sites ≡ self.old.table.sites }
        ensures refused { OnErr result (self.new ≡ self.old) }
        ensures fresh { OnErr result (Fresh ≡ freshness (kept_of self.old.kept from) number) }
        ensures memory { OnErr result (MakesSegment op self.old.table) }
    {
        match self.kept.ask(from, number) {
            Recall::Old => Ok(None),
            Recall::Again(reply) => Ok(Some(Done {
                reply: *reply,
                destroyed: None,
            })),
            Recall::Fresh => self.serve_fresh(from, number, op),
        }
    }

    fn serve_fresh(&mut self, from: SiteId, number: u64, op: Op) -> Result<Option<Done>, AllocError>
        requires site { from < 16 }
        requires home { op_home self.old.table.sites from op ≡ self.old.table.home }
        requires fresh { Fresh ≡ freshness (kept_of self.old.kept from) number }
        ensures step { IfOk result (λ done. Serves from number op self.old self.new done) }
        ensures spared { IfOk result (λ served. may_destroy op ≡ false → IfSome served (λ done. done.destroyed ≡ None)) }
        ensures home { self.new.table.home ≡ self.old.table.home }
        ensures sites { self.new.table.sites ≡ self.old.table.sites }
        ensures refused { OnErr result (self.new ≡ self.old) }
        ensures memory { OnErr result (MakesSegment op self.old.table) }
    {
        match execute(&mut self.table, op) {
            Err(error) => Err(error),
            Ok(done) => {
                self.kept.keep(from, number, done.reply);
                Ok(Some(done))
            }
        }
    }

    /// The destroyed segment with the least identifier, above the one given, that sites have yet to purge; and these sites.
    pub fn next_purge(&self, after: Option<SegId>) -> Option<(SegId, SiteSet)>
        ensures above { IfSome result (λ r. is_above after r.0 ≡ true) }
        ensures least { (id site : ℕ) → is_above after id ≡ true → missing_of self.now.table id site ≡ true → IsSomeAnd result (λ r. r.0 ≤ id) }
        ensures sites { IfSome result (λ r. (site : ℕ) → has r.1 site ≡ missing_of self.now.table r.0 site) }
        ensures some { IfSome result (λ r. has_none r.1 ≡ false) }
        ensures destroyed { IfSome result (λ r. is_purged_from self.now.table.segments r.0 ≡ true) }
        ensures numbered { IsNumbered self.now.table.home self.now.table.sites self.now.table.segments }
    {
        self.table.next_purge(after)
    }

    /// A site has purged a segment, which it is missing of no longer. Tells whether it was.
    pub fn on_purged(&mut self, id: SegId, site: SiteId) -> bool
        ensures was_missing { result ≡ missing_of self.old.table id site }
        ensures missing { (other at : ℕ) → missing_of self.new.table other at ≡ (missing_of self.old.table other at && not ((other == id) && (at == site))) }
        ensures rest { self.new ≡ record self.old { table = record self.old.table { missing = self.new.table.missing } } }
    {
        self.table.on_purged(id, site)
    }

    /// An equal home.
    pub fn copy(&self) -> Result<Home<A>, AllocError>
        ensures { IfOk result (λ home. home ≡ self.now) }
    {
        let table = self.table.copy()?;
        Ok(Home {
            table,
            kept: self.kept.copy(),
        })
    }
}
