//! A site's process reads its journal: the state that it begins with, and the steps that it records, which are made again.
ghost use Rattle.std.specs.Prelude.{◌≡◌, ◌<◌, is_none, is_some, true, false, IfNone, IfOk, IfSome, None, Some};
ghost use Rattle.shm_journal.specs.Found.{Sound, site_in};
ghost use Rattle.shm_journal.specs.Replaying.{IsNext};
ghost use Rattle.shm_journal.specs.StageOf.{IsOnward, Stands};
ghost use Rattle.shm_journal.specs.Stages.{InState, Opened, Stage, Telling as Told, next_stage, replayed_line, telling_nothing, tells_if};
ghost use Rattle.shm_journal.specs.StateLines.{read_state};
ghost use Rattle.shm_process.specs.NodeOf.{node_of};

use crate::journal_entry::Entry;
use crate::journal_line_parser::parse_entry;
use crate::replay_lines::Replay;
use crate::state_line_parser::parse_state_line;
use crate::state_telling::{Onward, Telling, tell};
use shm_place::{SiteId, Sites};
use shm_process::Node;
use std::alloc::{AllocError, Allocator, Global};

/// How far a journal was read. What a state tells is held from the header on, until the state ends or an entry comes.
#[derive(Drop)]
pub(crate) struct Reading<A: Allocator + Copy = Global> {
    pub(crate) node: Node<A>,
    pub(crate) telling: Option<Telling<A>>,
    pub(crate) in_state: bool,
}

impl<A: Allocator + Copy> Reading<A> {
    /// Only the header was read, of one of these sites, at which nothing has happened.
    pub(crate) fn new(alloc: A, node: Node<A>, sites: Sites, me: SiteId) -> Reading<A>
        requires { me < sites }
        ensures { Stands result (Opened (node_of node) (telling_nothing sites me)) }
    {
        Reading {
            node,
            telling: Some(Telling::new(alloc, sites, me)),
            in_state: false,
        }
    }

    /// The site that all lines lead to. `None`: they end within a state.
    pub(crate) fn into_node(self) -> Option<Node<A>>
        ensures some { (stage : Stage) → Stands self stage → IfSome result (λ node. site_in (Sound stage) ≡ Sound (node_of node)) }
        ensures none { (stage : Stage) → Stands self stage → IfNone result ((telling : Told) × (stage ≡ InState telling)) }
    {
        if self.in_state && self.telling.is_some() {
            return None;
        }
        Some(self.node)
    }

    /// Reads the first line behind the header: an entry, or a state's first line. `false`: it can be neither.
    fn read_first(&mut self, alloc: A, line: &[u8]) -> Result<bool, AllocError>
        requires told { is_none self.old.telling ≡ false }
        requires outside { self.old.in_state ≡ false }
        ensures { (stage : Stage) → Stands self.old stage → IfOk result (λ made. IsNext made (next_stage stage line.now) (Stands self.new)) }
    {
        let Some(Entry { clock, cause }) = parse_entry(alloc, line)? else {
            self.in_state = true;
            return self.read_told(alloc, line);
        };
        self.telling = None;
        self.node.replay_entry(clock, cause)
    }

    /// Reads a line of a state. `false`: it is none, or can't be told now.
    fn read_told(&mut self, alloc: A, line: &[u8]) -> Result<bool, AllocError>
        requires { self.old.in_state ≡ true }
        ensures { (telling : Told) → Stands self.old (InState telling)
            → IfOk result (λ made. IsNext made (tells_if telling (read_state line.now)) (Stands self.new)) }
    {
        let Some(line) = parse_state_line(alloc, line)? else {
            return Ok(false);
        };
        let Some(telling) = self.telling.take() else {
            return Ok(false);
        };
        let Some(onward) = tell(alloc, telling, line)? else {
            return Ok(false);
        };
        self.go_on(onward);
        Ok(true)
    }

    /// Stands where a line of a state led, whose telling was taken.
    fn go_on(&mut self, onward: Onward<A>)
        requires inside { self.old.in_state ≡ true }
        requires taken { self.old.telling ≡ None }
        ensures { (stage : Stage) → IsOnward onward stage → Stands self.new stage }
    {
        match onward {
            Onward::Further(telling) => self.telling = Some(telling),
            Onward::Resumed(node) => self.node = node,
        }
    }
}

impl<A: Allocator + Copy> Replay<A> for Reading<A> {
    ghost State = { Stage };

    ghost stands = { Stands };

    ghost next = { next_stage };

    fn replay_line(&mut self, alloc: A, line: &[u8]) -> Result<bool, AllocError> {
        if self.telling.is_none() {
            return replay_entry(alloc, &mut self.node, line);
        }
        if self.in_state {
            return self.read_told(alloc, line);
        }
        self.read_first(alloc, line)
    }
}

/// Makes the steps again that this line records; `false`: they can't be the site's next ones; then some of them may have been made.
#[tactic(auto, unfolding(crate::specs::Stages::replayed_entry))]
fn replay_entry<A: Allocator + Copy>(
    alloc: A,
    node: &mut Node<A>,
    line: &[u8],
) -> Result<bool, AllocError>
    ensures made { IfOk result (λ made. made ≡ is_some (replayed_line (node_of node.old) line.now)) }
    ensures after { IfOk result (λ made. made ≡ true → Some (node_of node.new) ≡ replayed_line (node_of node.old) line.now) }
{
    let Some(Entry { clock, cause }) = parse_entry(alloc, line)? else {
        return Ok(false);
    };
    node.replay_entry(clock, cause)
}
