//! A mapping that a caller gives up, turns from write into read, or whose bytes alone it brings.
use crate::caller_tag::Tag;
use base64::display::Base64Display;
use base64::engine::general_purpose::STANDARD;
use shm_model::Kind;
use shm_place::SiteId;
use std::alloc::{Allocator, Global};
use std::fmt;

/// Bytes of a segment one after another, the first at `offset`: 1 to 4,096, the last offset below 2 to the 32.
#[derive(Drop)]
pub struct Run<A: Allocator + Copy = Global> {
    pub offset: u32,
    pub bytes: Vec<u8, A>,
}

/// The page with this index in the attachment's segment was mapped, and the machine's processors changed these runs of it. `keeps` says what
/// stays mapped: nothing, or to read (`unmap`); `Write` leaves the mapping as it is (`sync`). Each byte is a store; they are answered once.
#[derive(Drop)]
pub struct UnmapAsk<A: Allocator + Copy = Global> {
    pub site: SiteId,
    pub tag: Tag,
    pub at: u32,
    pub index: u32,
    pub keeps: Option<Kind>,
    pub runs: Vec<Run<A>, A>,
}

impl<A: Allocator + Copy> fmt::Display for UnmapAsk<A> {
    ghost use Rattle.std.specs.Prelude.{Some};
    ghost use Rattle.shm_wire.specs.UnmapOf.{unmap_in};
    ghost use Rattle.shm_wire.specs.Unmaps.{unmap_line};

    ghost output = { λ unmap. Some (unmap_line (unmap_in unmap)) };

    /// The ask's line, without a line feed.
    fn fmt<W: fmt::Write>(&self, f: &mut fmt::Formatter<W>) -> fmt::Result {
        let site = self.site.0;
        let tag = self.tag;
        let at = self.at;
        let index = self.index;
        let runs = RunsText {
            runs: self.runs.as_slice(),
        };
        match self.keeps {
            None => write!(f, "ask {site} {tag} unmap {at} {index} none{runs}"),
            Some(Kind::Read) => write!(f, "ask {site} {tag} unmap {at} {index} read{runs}"),
            Some(Kind::Write) => write!(f, "ask {site} {tag} sync {at} {index}{runs}"),
        }
    }
}

/// Runs of bytes, with a blank before each word.
#[derive(Clone, Copy)]
struct RunsText<'a, A: Allocator + Copy> {
    runs: &'a [Run<A>],
}

impl<'a, A: Allocator + Copy> fmt::Display for RunsText<'a, A> {
    ghost use Rattle.std.specs.Prelude.{Some, map};
    ghost use Rattle.std.specs.List.{flat_map};
    ghost use Rattle.shm_wire.specs.UnmapOf.{run_in};
    ghost use Rattle.shm_wire.specs.Unmaps.{run_text};

    ghost output = { λ text. Some (flat_map (λ run. run_text (run_in run)) text.runs.now) };

    fn fmt<W: fmt::Write>(&self, f: &mut fmt::Formatter<W>) -> fmt::Result {
        'runs: for run in self.runs {
            let text = RunText { run };
            write!(f, "{text}")?;
        }
        Ok(())
    }
}

/// A run of bytes, with a blank before each word.
#[derive(Clone, Copy)]
struct RunText<'a, A: Allocator + Copy> {
    run: &'a Run<A>,
}

impl<'a, A: Allocator + Copy> fmt::Display for RunText<'a, A> {
    ghost use Rattle.std.specs.Prelude.{Some};
    ghost use Rattle.shm_wire.specs.UnmapOf.{run_in};
    ghost use Rattle.shm_wire.specs.Unmaps.{run_text};

    ghost output = { λ text. Some (run_text (run_in text.run.now)) };

    fn fmt<W: fmt::Write>(&self, f: &mut fmt::Formatter<W>) -> fmt::Result {
        let offset = self.run.offset;
        let bytes = Base64Display::new(self.run.bytes.as_slice(), &STANDARD);
        write!(f, " {offset} {bytes}")
    }
}
