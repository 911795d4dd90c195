//! A page that is given up, or whose bytes are brought: each byte is stored by a step, and then the page is given up with one. One entry
//! records them.
ghost use Rattle.std.specs.Prelude.{◌≡◌, ◌+◌, ◌^◌, ◌<◌, ◌≤◌, All, OnOk, false, length, map, max};
ghost use Rattle.shm_model.specs.Basics.{greatest};
ghost use Rattle.shm_process.specs.Causes.{store_line};
ghost use Rattle.shm_process.specs.Counts.{is_envelope};
ghost use Rattle.shm_process.specs.Desk.{brought, given_up, given_up_by, stored_run, unmap_reply, unrecorded};
ghost use Rattle.shm_process.specs.DeskOf.{desk_of};
ghost use Rattle.shm_wire.specs.Line as stream;
ghost use Rattle.shm_wire.specs.Line.{IsLine};
ghost use Rattle.shm_wire.specs.LineOf.{line_of};
ghost use Rattle.shm_wire.specs.UnmapOf.{run_in, unmap_in};
ghost use Rattle.shm_wire.specs.Unmaps.{IsRun, IsUnmap, unmap_line};

use crate::desk::Desk;
use crate::desk_meets_line::untagged;
use shm_model::{Asked, Kind};
use shm_wire::{Ask, Line, Question, Run, UnmapAsk};
use std::alloc::{AllocError, Allocator};

impl<A: Allocator + Copy> Desk<A> {
    /// Gives up what this line gives up.
    pub(crate) fn give_up_by(&mut self, line: &[u8], read: Line<A>) -> Result<(), AllocError>
        requires early { max (desk_of self.old).node.clock 0 < greatest }
        requires is_line { IsLine (line_of read) }
        requires spelled { line.now ≡ stream.line_text (line_of read) }
        ensures { OnOk result (desk_of self.new ≡ given_up_by (desk_of self.old) (line_of read)) }
    {
        match read {
            Line::Unmap(ask) => self.give_up(line, &ask),
            Line::Envelope(_) | Line::Ask(_) | Line::Write(_) => Ok(()),
        }
    }

    /// Records the unmap, stores all bytes that it brings, and then gives the page up.
    #[tactic(auto, unfolding(crate::specs::Desk::given_up))]
    fn give_up(&mut self, line: &[u8], ask: &UnmapAsk<A>) -> Result<(), AllocError>
        requires early { max (desk_of self.old).node.clock 0 < greatest }
        requires is_line { IsUnmap (unmap_in ask.now) }
        requires spelled { line.now ≡ unmap_line (unmap_in ask.now) }
        ensures { OnOk result (desk_of self.new ≡ given_up (desk_of self.old) (unmap_in ask.now)) }
    {
        let clock = self.node.next_clock(0);
        self.push_record(clock, line)?;
        self.bring(ask, ask.runs.as_slice())?;
        let last = UnmapAsk {
            site: ask.site,
            tag: ask.tag,
            at: ask.at,
            index: ask.index,
            keeps: ask.keeps,
            runs: Vec::new(self.alloc),
        };
        self.make_unrecorded(Line::Unmap(last))?;
        self.tell(Some(ask.tag), unmap_reply(ask.keeps))
    }

    /// Stores the bytes of all runs.
    fn bring(&mut self, ask: &UnmapAsk<A>, runs: &[Run<A>]) -> Result<(), AllocError>
        requires ask { IsUnmap (unmap_in ask.now) }
        requires runs { All IsRun (map run_in runs.now) }
        ensures { OnOk result (desk_of self.new ≡ brought (desk_of self.old) (unmap_in ask.now) (map run_in runs.now)) }
    {
        'runs: for run in runs {
            self.store_run(ask, run.offset, run.bytes.as_slice())?;
        }
        Ok(())
    }

    /// Stores bytes one after another, from this offset on: at once where they are of one page that the site may write.
    fn store_run(&mut self, ask: &UnmapAsk<A>, offset: u32, bytes: &[u8]) -> Result<(), AllocError>
        requires ask { IsUnmap (unmap_in ask.now) }
        requires within { offset + length bytes.now ≤ 2 ^ 32 }
        ensures { OnOk result (desk_of self.new ≡ stored_run (desk_of self.old) (unmap_in ask.now) offset bytes.now) }
    {
        // They are read so that the proof knows them to be below 2^64: counting none then leaves them as they are.
        let (_sent, _taken) = (self.counts.envelopes_sent(), self.node.lines_taken());
        if self.node.may_bring(ask.site, ask.at, offset, bytes.len()) {
            return self.node.store_brought(ask.at, offset, bytes);
        }
        self.store_each(ask, offset, bytes)
    }

    /// Stores bytes one after another, each a step of its own.
    fn store_each(&mut self, ask: &UnmapAsk<A>, offset: u32, bytes: &[u8]) -> Result<(), AllocError>
        requires ask { IsUnmap (unmap_in ask.now) }
        requires within { offset + length bytes.now ≤ 2 ^ 32 }
        ensures { OnOk result (desk_of self.new ≡ stored_run (desk_of self.old) (unmap_in ask.now) offset bytes.now) }
    {
        'bytes: for place in 0..bytes.len() {
            self.store_byte(ask, offset + place as u32, bytes[place])?;
        }
        Ok(())
    }

    /// Stores a byte that is brought, one step.
    fn store_byte(&mut self, ask: &UnmapAsk<A>, offset: u32, byte: u8) -> Result<(), AllocError>
        requires { IsUnmap (unmap_in ask.now) }
        ensures { OnOk result (desk_of self.new ≡ unrecorded (desk_of self.old) (store_line (unmap_in ask.now) offset byte)) }
    {
        let at = ask.at;
        let store = Ask {
            site: ask.site,
            tag: ask.tag,
            asked: Question::Try(Asked::Store { at, offset, byte }),
        };
        self.make_unrecorded(Line::Ask(store))
    }

    /// Makes the step of a line, which the unmap's entry records. Its answer isn't told.
    #[tactic(auto, unfolding(crate::specs::Desk::unrecorded))]
    fn make_unrecorded(&mut self, read: Line<A>) -> Result<(), AllocError>
        requires is_line { IsLine (line_of read) }
        requires asked { is_envelope (line_of read) ≡ false }
        ensures { OnOk result (desk_of self.new ≡ unrecorded (desk_of self.old) (line_of read)) }
    {
        match self.node.take(read)? {
            Some(said) => self.push_told(&untagged(said)),
            None => Ok(()),
        }
    }
}

/// What is told at the end, by what stays mapped.
fn unmap_reply(keeps: Option<Kind>) -> &'static str
    ensures { result.now ≡ unmap_reply keeps }
{
    match keeps {
        None | Some(Kind::Read) => "unmapped",
        Some(Kind::Write) => "synced",
    }
}
