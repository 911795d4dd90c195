//! A desk says to other sites how its own was begun, and notes where another says otherwise.
ghost use Rattle.std.specs.Prelude.{◌≡◌, ◌++◌, string_bytes, IfOk, OnOk};
ghost use Rattle.shm_process.specs.Desk.{disagreement_in, greeting_at, noted, with_other};
ghost use Rattle.shm_process.specs.DeskOf.{desk_of};
ghost use Rattle.shm_process.specs.Hello.{first_other, greeting, hello_for, hello_line, read_hello};
ghost use Rattle.shm_process.specs.NodeOf.{node_of};
ghost use Rattle.shm_seal.specs.SealOf.{seal_of};

use crate::desk::Desk;
use crate::envelope_lines::push_sealed;
use crate::hello_line::{Hello, parse_hello};
use crate::node::Node;
use crate::process_counts::{Counts, Start};
use crate::site_opening::{Disagreement, Opening};
use shm_seal::Seal;
use std::alloc::{AllocError, Allocator};

impl<A: Allocator + Copy> Desk<A> {
    /// A desk that says to all other sites first how its own was begun, and notes the first that says otherwise. It counts on from this start.
    pub fn greeting(
        alloc: A,
        seal: Seal,
        node: Node<A>,
        opening: Opening,
        start: Start,
    ) -> Result<Desk<A>, AllocError>
        ensures { IfOk result (λ desk. desk_of desk ≡ greeting_at (seal_of seal) (node_of node) opening start) }
    {
        let told = hellos(alloc, &seal, &opening)?;
        Ok(Desk {
            node,
            seal,
            opening: Some(opening),
            other: None,
            later: None,
            counts: Counts::new(start),
            line: Vec::new(alloc),
            kept: Vec::new(alloc),
            recorded: Vec::new(alloc),
            row: None,
            told,
            alloc,
        })
    }

    /// How the first other site was begun that said otherwise than this one, if one did.
    pub fn disagreement(&self) -> Option<Disagreement>
        ensures { result ≡ disagreement_in (desk_of self.now) }
    {
        let own = self.opening?;
        let other = self.other?;
        Some(Disagreement { own, other })
    }

    /// Hears a line that isn't for a site: it may be the first that says another opening.
    pub(crate) fn hear(&mut self, line: &[u8]) -> Result<(), AllocError>
        ensures { OnOk result (desk_of self.new ≡ noted (desk_of self.old) (read_hello line.now)) }
    {
        match self.find_other(line) {
            Some(disagreement) => self.note(disagreement),
            None => Ok(()),
        }
    }

    /// Finds the first other opening in a line.
    fn find_other(&self, line: &[u8]) -> Option<Disagreement>
        ensures { result ≡ first_other (desk_of self.now).opening (desk_of self.now).other (read_hello line.now) }
    {
        if self.other.is_some() {
            return None;
        }
        let own = self.opening?;
        let hello = parse_hello(line)?;
        own.compare(&hello)
    }

    /// Notes another opening, and tells that site the own.
    fn note(&mut self, disagreement: Disagreement) -> Result<(), AllocError>
        ensures { OnOk result (desk_of self.new ≡ with_other (desk_of self.old) disagreement) }
    {
        let Disagreement { own, other } = disagreement;
        let hello = own.hello_to(other.site);
        push_hello(self.alloc, &self.seal, &mut self.told, &hello)?;
        self.other = Some(other);
        Ok(())
    }
}

/// What a site says first: a hello to each other site, on a line of its own, sealed.
fn hellos<A: Allocator + Copy>(
    alloc: A,
    seal: &Seal,
    own: &Opening,
) -> Result<String<A>, AllocError>
    ensures { IfOk result (λ text. string_bytes text ≡ greeting (seal_of seal.now) own.now) }
{
    let mut text = String::new(alloc);
    'sites: for to in 0..own.sites {
        push_hello_for(alloc, seal, &mut text, own, to)?;
    }
    Ok(text)
}

/// Appends the hello to that site, unless it is this one.
fn push_hello_for<A: Allocator + Copy>(
    alloc: A,
    seal: &Seal,
    text: &mut String<A>,
    own: &Opening,
    to: u32,
) -> Result<(), AllocError>
    ensures { OnOk result (string_bytes text.new ≡ string_bytes text.old ++ hello_for (seal_of seal.now) own.now to) }
{
    if to == own.site {
        return Ok(());
    }
    push_hello(alloc, seal, text, &own.hello_to(to))
}

/// Appends a hello, sealed, and a line feed.
#[tactic(auto, unfolding(crate::specs::Hello::hello_line))]
fn push_hello<A: Allocator + Copy>(
    alloc: A,
    seal: &Seal,
    text: &mut String<A>,
    hello: &Hello,
) -> Result<(), AllocError>
    ensures { OnOk result (string_bytes text.new ≡ string_bytes text.old ++ hello_line (seal_of seal.now) hello.now) }
{
    let line = format!(in alloc; "{hello}")?;
    push_sealed(alloc, seal, text, line.as_str())
}
