//! Takes bytes, opens the lines that they end, and gathers the entries and the sealed output of those lines.
ghost use Rattle.std.specs.Prelude.{◌≡◌, ◌<◌, ◌==◌, ◌++◌, ◌∷◌, [], All, false, IfNone, IfSome, Ok, OnOk, Some};
ghost use Rattle.shm_model.specs.Basics.{greatest};
ghost use Rattle.shm_process.specs.Counts.{is_envelope};
ghost use Rattle.shm_process.specs.CountsOf.{counts_of};
ghost use Rattle.shm_process.specs.Desk.{after_line, after_opened, after_read_line, cleared, desk_at, is_at_rest, left_sealed, on_bytes, restarted, settled, taken, tell, line_text};
ghost use Rattle.shm_process.specs.DeskOf.{desk_of};
ghost use Rattle.shm_process.specs.NodeOf.{node_of};
ghost use Rattle.shm_process.specs.Telling.{shown_line};
ghost use Rattle.shm_process.specs.Waiting.{most_steps, passed_over};
ghost use Rattle.shm_seal.specs.Seal.{Bare};
ghost use Rattle.shm_seal.specs.SealOf.{seal_of};
ghost use Rattle.shm_wire.specs.Line as stream;
ghost use Rattle.shm_wire.specs.Line.{IsLine};
ghost use Rattle.shm_wire.specs.LineOf.{line_of};

use crate::access_row::Row;
use crate::envelope_lines::push_sealed;
use crate::kept_line::KeptLine;
use crate::node::Node;
use crate::process_counts::{Counts, Start};
use crate::site_opening::Opening;
use memchr::memchr;
use shm_seal::{Seal, Unsealed};
use shm_wire::{Line, parse_line};
use std::alloc::{AllocError, Allocator, Global};
use std::mem;

/// How many bytes a line has at most, less its line feed. A longer one is passed over.
const MAX_LINE_BYTES: usize = 8192;

/// A node whose lines come as bytes. It gathers entries, one for each step, and output: answers, and what its site sent. It takes a line as
/// its seal opens it, passes over one that it doesn't open, and seals its output. It may say to other sites how its own was begun, and note
/// where another says otherwise. It notes the first step of its own site that other sites were told of, and it doesn't have.
#[derive(Drop)]
pub struct Desk<A: Allocator + Copy = Global> {
    pub(crate) node: Node<A>,
    pub(crate) seal: Seal,
    pub(crate) opening: Option<Opening>,
    pub(crate) other: Option<Opening>,
    pub(crate) later: Option<u64>,
    pub(crate) counts: Counts,
    pub(crate) line: Vec<u8, A>,
    pub(crate) kept: Vec<KeptLine<A>, A>,
    pub(crate) recorded: Vec<u8, A>,
    pub(crate) row: Option<Row<A>>,
    pub(crate) told: String<A>,
    pub(crate) alloc: A,
}

impl<A: Allocator + Copy> Desk<A> {
    /// A desk that has read nothing yet, of lines without a seal. It says no hello.
    pub fn new(alloc: A, node: Node<A>) -> Desk<A>
        ensures { desk_of result ≡ desk_at Bare (node_of node) }
    {
        Desk::sealed(alloc, Seal::Bare, node)
    }

    /// A desk that has read nothing yet, of lines under this seal. It says no hello.
    pub fn sealed(alloc: A, seal: Seal, node: Node<A>) -> Desk<A>
        ensures { desk_of result ≡ desk_at (seal_of seal) (node_of node) }
    {
        Desk {
            node,
            seal,
            opening: None,
            other: None,
            later: None,
            counts: Counts::new(Start {
                journal: 0,
                since: 0,
            }),
            line: Vec::new(alloc),
            kept: Vec::new(alloc),
            recorded: Vec::new(alloc),
            row: None,
            told: String::new(alloc),
            alloc,
        }
    }

    /// The node as it stands.
    pub fn node(&self) -> &Node<A>
        ensures { node_of result.now ≡ (desk_of self.now).node }
    {
        &self.node
    }

    /// What it counted. Lines that weren't opened the node counts too, as lines that it passed over.
    pub fn counts(&self) -> Counts
        ensures { counts_of result ≡ (desk_of self.now).counts }
    {
        self.counts
    }

    /// The clock of the first step that its site has told, as a line says that came, and that it doesn't have: the site's journal is an older
    /// copy, or another's.
    pub fn later(&self) -> Option<u64>
        ensures { result ≡ (desk_of self.now).later }
    {
        self.later
    }

    /// Checks that no ask waits, and that no line is kept back: then nobody loses an answer where the site restarts.
    #[tactic(auto, using(crate::proofs::Asks::length_map))]
    pub fn is_at_rest(&self) -> bool
        ensures { result ≡ is_at_rest (desk_of self.now) }
    {
        self.node.asks_waiting() == 0 && self.kept.is_empty()
    }

    /// The allocator of what it gathers.
    pub fn allocator(&self) -> A
        ensures { result ≡ self.now.alloc }
    {
        self.alloc
    }

    /// The entries of the steps that were made, each `step CLOCK LINE` and a line feed. A block's steps that were made one after another
    /// have one entry, and so have those of an unmap. They have to be durable before any output is written.
    pub fn entries(&self) -> &[u8]
        ensures { result.now ≡ (desk_of self.now).recorded }
    {
        self.recorded.as_slice()
    }

    /// The output, still to be written.
    pub fn output(&self) -> &str
        ensures { result.now ≡ (desk_of self.now).told }
    {
        self.told.as_str()
    }

    /// Forgets the entries and the output, which were written.
    pub fn clear(&mut self)
        ensures { desk_of self.new ≡ cleared (desk_of self.old) }
    {
        self.recorded.clear();
        self.told.clear();
    }

    /// Restarts the site, one step. It forgets the asks that wait: their callers ask again. Where memory is refused the desk is useless.
    #[tactic(auto, unfolding(crate::specs::Desk::restarted))]
    pub fn restart(&mut self) -> Result<(), AllocError>
        requires { (desk_of self.old).node.clock < greatest }
        ensures { OnOk result (desk_of self.new ≡ restarted (desk_of self.old)) }
    {
        let said = self.node.restart()?;
        self.kept.clear();
        self.push_step(b"restart".as_slice(), &said, false)
    }

    /// Takes these bytes: each line that they end, and after each line the waiting asks, as far as they can be made. Where memory is
    /// refused a part may be done, and the desk is useless.
    pub fn take(&mut self, bytes: &[u8]) -> Result<(), AllocError>
        ensures { OnOk result (desk_of self.new ≡ on_bytes (desk_of self.old) bytes.now) }
    {
        let mut rest = bytes;
        'lines: loop {
            let Some((front, behind)) = cut_line(rest) else {
                return self.keep(rest);
            };
            self.end_line(front)?;
            rest = behind;
        }
    }

    /// These bytes of a line come, whose end is still to come. Of a line that is too long the rest isn't kept.
    fn keep(&mut self, bytes: &[u8]) -> Result<(), AllocError>
        requires { All (λ byte. (byte == 10) ≡ false) bytes.now }
        ensures { OnOk result (desk_of self.new ≡ on_bytes (desk_of self.old) bytes.now) }
    {
        let room = (MAX_LINE_BYTES + 1).saturating_sub(self.line.len());
        let count = room.min(bytes.len());
        self.line.extend_from_slice(&bytes[..count])?;
        Ok(())
    }

    /// A line ends with these bytes. They are copied only where its front was.
    fn end_line(&mut self, bytes: &[u8]) -> Result<(), AllocError>
        requires { All (λ byte. (byte == 10) ≡ false) bytes.now }
        ensures { OnOk result (desk_of self.new ≡ on_bytes (desk_of self.old) (bytes.now ++ 10 ∷ [])) }
    {
        if self.line.is_empty() {
            return self.take_line(bytes);
        }
        self.keep(bytes)?;
        self.take_kept()
    }

    /// The line that was kept is taken.
    fn take_kept(&mut self) -> Result<(), AllocError>
        ensures { OnOk result (desk_of self.new ≡ after_line (record (desk_of self.old) { line = [] }) (desk_of self.old).line) }
    {
        let line = mem::replace(&mut self.line, Vec::new(self.alloc));
        self.take_line(line.as_slice())
    }

    /// A whole line is opened, unless it is too long.
    #[tactic(auto, unfolding(crate::specs::Desk::after_line))]
    fn take_line(&mut self, line: &[u8]) -> Result<(), AllocError>
        ensures { OnOk result (desk_of self.new ≡ after_line (desk_of self.old) line.now) }
    {
        if line.len() > MAX_LINE_BYTES {
            self.node.pass_over();
            return Ok(());
        }
        let seal = self.seal;
        match seal.open(line) {
            Ok(inner) => self.take_opened(inner),
            Err(why) => self.leave_sealed(why),
        }
    }

    /// Passes over a line that wasn't opened.
    fn leave_sealed(&mut self, why: Unsealed) -> Result<(), AllocError>
        ensures { OnOk result (desk_of self.new ≡ settled most_steps (left_sealed (desk_of self.old) why)) }
    {
        self.counts = self.counts.with_unopened(why);
        self.pass_line()
    }

    /// Takes a line that was opened.
    fn take_opened(&mut self, line: &[u8]) -> Result<(), AllocError>
        ensures { OnOk result (desk_of self.new ≡ after_opened (desk_of self.old) (Ok line.now)) }
    {
        match parse_line(self.alloc, line)? {
            Some(read) => {
                self.note_later(&read);
                self.take_parsed(line, read)
            }
            None => {
                self.hear(line)?;
                self.pass_line()
            }
        }
    }

    /// Takes what a line is, then what was kept back, and then the asks that wait.
    fn take_parsed(&mut self, line: &[u8], read: Line<A>) -> Result<(), AllocError>
        requires is_line { IsLine (line_of read) }
        requires spelled { line.now ≡ stream.line_text (line_of read) }
        ensures { OnOk result (desk_of self.new ≡ after_read_line (desk_of self.old) line.now (Some (line_of read))) }
    {
        let tick = self.node.ticks(&read);
        self.meet_read(true, line, read)?;
        self.finish(tick)
    }

    /// Passes over a line that isn't for a site.
    fn pass_line(&mut self) -> Result<(), AllocError>
        ensures { OnOk result (desk_of self.new ≡ settled most_steps (record (desk_of self.old) { node = passed_over (desk_of self.old).node })) }
    {
        self.node.pass_over();
        self.settle()
    }

    /// Takes the line, and gathers its output. The entry of a step has the line itself: each has one spelling.
    #[tactic(auto, unfolding(crate::specs::Desk::taken))]
    pub(crate) fn take_read(&mut self, line: &[u8], read: Line<A>) -> Result<(), AllocError>
        requires is_line { IsLine (line_of read) }
        requires spelled { line.now ≡ stream.line_text (line_of read) }
        ensures { OnOk result (desk_of self.new ≡ taken (desk_of self.old) (Some (line_of read))) }
    {
        self.show(&read)?;
        let received = is_envelope(&read);
        match self.node.take(read)? {
            Some(said) => self.push_step(line, &said, received),
            None => Ok(()),
        }
    }

    /// Answers the line at once: with a page's state, with the site's counts, or that a block finds no room.
    fn show(&mut self, read: &Line<A>) -> Result<(), AllocError>
        ensures { OnOk result (desk_of self.new ≡ tell (desk_of self.old) (line_text (desk_of self.old).seal (shown_line (desk_of self.old).counts (desk_of self.old).node (line_of read.now)))) }
    {
        match self.node.line_at_once(self.counts, read)? {
            Some(shown) => push_sealed(self.alloc, &self.seal, &mut self.told, shown.as_str()),
            None => Ok(()),
        }
    }
}

/// Checks that a line is an envelope.
pub(crate) fn is_envelope<A: Allocator + Copy>(line: &Line<A>) -> bool
    ensures { result ≡ is_envelope (line_of line.now) }
{
    matches!(line, Line::Envelope(_))
}

/// Splits the bytes at the first line feed.
fn cut_line(bytes: &[u8]) -> Option<(&[u8], &[u8])>
    ensures cut { IfSome result (λ cut. bytes.now ≡ cut.0.now ++ 10 ∷ cut.1.now) }
    ensures first { IfSome result (λ cut. All (λ byte. (byte == 10) ≡ false) cut.0.now) }
    ensures none { IfNone result (All (λ byte. (byte == 10) ≡ false) bytes.now) }
{
    let at = memchr(b'\n', bytes)?;
    Some((&bytes[..at], &bytes[at + 1..]))
}
