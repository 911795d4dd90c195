//! A text of lines, which grows by a whole line or not at all.
ghost use Rattle.std.specs.Prelude.{◌≡◌, ◌++◌, [], length, IfOk, IfSome, OnErr, OnOk, string_bytes};
ghost use Rattle.shm_text.specs.Text.{line_text};

use std::alloc::{AllocError, Allocator, Global};
use std::fmt::Display;
use std::marker::Model;
use std::mem;

/// The lines of an output. Each is made beside the text first, in room that is used again and again.
#[derive(Drop)]
pub struct Text<A: Allocator + Copy = Global> {
    told: String<A>,
    line: String<A>,
}

impl<A: Allocator + Copy> Model for Text<A> {
    ghost use Rattle.std.specs.Prelude.{ℕ, List, string_bytes};

    ghost Value = { List ℕ };

    ghost view = { λ text. string_bytes text.told };
}

impl<A: Allocator + Copy> Text<A> {
    /// An empty text, with room for this many bytes, and for this many of a line. While they suffice nothing more is allocated.
    pub fn new(alloc: A, bytes: usize, line_bytes: usize) -> Result<Text<A>, AllocError>
        ensures { IfOk result (λ text. text ≡ []) }
    {
        let told = String::with_capacity(alloc, bytes)?;
        let line = String::with_capacity(alloc, line_bytes)?;
        Ok(Text { told, line })
    }

    /// The room in which lines are made, empty. Whoever takes it makes a line there, and gives it back by [`Text::push_line`]; otherwise
    /// the next line gets new room.
    pub fn take_line(&mut self) -> String<A>
        ensures empty { string_bytes result ≡ [] }
        ensures same { self.new ≡ self.old }
    {
        let alloc = *self.line.allocator();
        let mut line = mem::replace(&mut self.line, String::new(alloc));
        line.clear();
        line
    }

    /// A line that was made ready, with its line feed. Its room is that of the next.
    pub fn push_line(&mut self, line: String<A>) -> Result<(), AllocError>
        ensures ok { OnOk result (self.new ≡ self.old ++ string_bytes line) }
        ensures err { OnErr result (self.new ≡ self.old) }
    {
        let told = self.told.push_str(line.as_str());
        self.line = line;
        told
    }

    /// A line of this number, in the words of its `Display`.
    pub fn tell<D: Display + Drop>(&mut self, line: u64, said: D) -> Result<(), AllocError>
        ensures ok { OnOk result (IfSome (D.output said) (λ text. self.new ≡ self.old ++ line_text line text)) }
        ensures err { OnErr result (self.new ≡ self.old) }
    {
        self.line.clear();
        writeln!(self.line, "{line} {said}")?;
        self.told.push_str(self.line.as_str())
    }

    /// The whole text.
    pub fn as_bytes(&self) -> &[u8]
        ensures { result.now ≡ self.now }
    {
        self.told.as_bytes()
    }

    /// The length of the text, in bytes.
    pub fn len(&self) -> usize
        ensures { result ≡ length self.now }
    {
        self.told.as_bytes().len()
    }

    /// Empties the text. Keeps the room.
    pub fn clear(&mut self)
        ensures { self.new ≡ [] }
    {
        self.told.clear();
    }
}
