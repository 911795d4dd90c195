//! `open`: a script that was saved, as if its lines were typed into a fresh session.
ghost use Rattle.std.specs.Prelude.{◌≡◌, ◌++◌, Err, IfOk, MatchOption, OnErr, OnOk};
ghost use Rattle.shm_prompt.specs.Dialog.{Opens, Plays, lines_in, long_text, opened_by, told_of_lines, unread_text, wrong_text};

use crate::dialog_state::Dialog;
use crate::read_refusal::ReadRefusal;
use crate::save_file_trait::SaveFile;
use crate::script_line_act::act_on;
use shm_debug::Session;
use shm_lines::{laws, parse_line, split_at};
use std::alloc::{AllocError, Allocator};

impl<A: Allocator + Copy> Dialog<A> {
    /// Opens the file of this name: what stands is then what its lines lead to, without notes. Where it can't be read, a line of it is none,
    /// or no line begins the sites, all stays.
    pub(crate) fn open_file<S: SaveFile>(
        &mut self,
        name: &str,
        files: &S,
        out: &mut Vec<u8, A>,
    ) -> Result<(), AllocError>
        ensures opened { OnOk result (Opens (S.gives files.now) name.now self.old self.new out.old.items out.new.items) }
        ensures halted { OnErr result (self.new ≡ self.old) }
    {
        let alloc = self.alloc;
        match files.read(alloc, name) {
            Ok(bytes) => self.open_script(bytes.as_slice(), out),
            Err(ReadRefusal::TooLong) => tell_long(name, out),
            Err(ReadRefusal::Unread) => tell_unread(name, out),
            Err(ReadRefusal::OutOfMemory) => Err(AllocError),
        }
    }

    /// Plays a script into a fresh session, which stands then.
    fn open_script(&mut self, bytes: &[u8], out: &mut Vec<u8, A>) -> Result<(), AllocError>
        ensures opened { OnOk result (self.new ≡ opened_by (lines_in bytes.now) self.old) }
        ensures told { OnOk result (out.new.items ≡ out.old.items ++ told_of_lines (lines_in bytes.now)) }
        ensures halted { OnErr result (self.new ≡ self.old) }
    {
        let mut told = Vec::new(self.alloc);
        let mut fresh = None;
        if let Some(number) = play_lines(&mut fresh, self.alloc, bytes, &mut told)? {
            return tell_wrong(number, out);
        }
        let Some(opened) = fresh else {
            return out.extend_from_slice(b"not opened: no line begins the sites\n");
        };
        out.extend_from_slice(told.as_slice())?;
        self.session = Some(opened);
        self.notes.clear();
        Ok(())
    }
}

/// Acts on each line. Answers the number of the first that is none; then no later one was acted on.
fn play_lines<A: Allocator + Copy>(
    session: &mut Option<Session<A>>,
    alloc: A,
    bytes: &[u8],
    out: &mut Vec<u8, A>,
) -> Result<Option<u64>, AllocError>
    ensures { IfOk result (λ wrong. MatchOption wrong (Plays bytes.now session.old session.new out.old.items out.new.items)
        (λ number. lines_in bytes.now ≡ Err number)) }
{
    laws::lines_have_one_spelling();
    let mut rest = bytes;
    let mut number = 1u64;
    'lines: loop {
        let (line, others) = split_at(rest, b'\n');
        let Some(others) = others else {
            return Ok(None);
        };
        let Ok(line) = parse_line(line) else {
            return Ok(Some(number));
        };
        act_on(session, alloc, line, out)?;
        rest = others;
        number += 1;
    }
}

fn tell_wrong<A: Allocator + Copy>(number: u64, out: &mut Vec<u8, A>) -> Result<(), AllocError>
    ensures { OnOk result (out.new.items ≡ out.old.items ++ wrong_text number) }
{
    let text = format!(in *out.allocator(); "not opened: line {number} is none of a script\n")?;
    out.extend_from_slice(text.as_bytes())
}

fn tell_unread<A: Allocator + Copy>(name: &str, out: &mut Vec<u8, A>) -> Result<(), AllocError>
    ensures { OnOk result (out.new.items ≡ out.old.items ++ unread_text name.now) }
{
    let text = format!(in *out.allocator(); "not opened: {name} can't be read\n")?;
    out.extend_from_slice(text.as_bytes())
}

fn tell_long<A: Allocator + Copy>(name: &str, out: &mut Vec<u8, A>) -> Result<(), AllocError>
    ensures { OnOk result (out.new.items ≡ out.old.items ++ long_text name.now) }
{
    let text = format!(in *out.allocator(); "not opened: {name} is longer than any script\n")?;
    out.extend_from_slice(text.as_bytes())
}
