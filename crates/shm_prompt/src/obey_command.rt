//! What each command does to the session, and its answer.
ghost use Rattle.std.specs.Prelude.{◌≡◌, ◌++◌, ◌⊎◌, Some, codes, false, true, IfOk, OnErr, OnOk};
ghost use Rattle.shm_prompt.specs.Command.{IsCommand, command_of, is_notes, is_quit, is_save};
ghost use Rattle.shm_prompt.specs.Dialog.{HaltedCommand, HaltedRun, HaltedTyped, LeavesNotes, Obeyed, ObeyedTyped, OpensTyped, Ran, Runs, ShowsStanding, SomeDelivered, TellsMore, TellsOfStanding, next_undo, run_end, standing_now, told_undo};
ghost use Rattle.shm_prompt.specs.Hints.{TellsPlain};
ghost use Rattle.shm_prompt.specs.Saved.{lines_of, text_of_lines};
ghost use Rattle.shm_prompt.specs.Saves.{HaltsNotes, HaltsScript, MayTry, SavesNotes, SavesScript, SavesTyped, file_named, not_saved};
ghost use Rattle.shm_prompt.specs.Spelled.{refusal_words};

use crate::deliver_all::deliver_all;
use crate::dialog_state::Dialog;
use crate::envelopes_in_flight::list_flight;
use crate::file_name::file_name;
use crate::help_text::HELP;
use crate::pages_table::{show_book, show_pages};
use crate::plain_text::tell_plain;
use crate::prompt_command::{Command, parse_command};
use crate::save_file_trait::SaveFile;
use crate::save_refusal::SaveRefusal;
use crate::saved_script_text::saved_script;
use crate::script_line_act::NOT_BEGUN;
use crate::segments_table::list_segments;
use crate::undo_command::undo_on;
use crate::write_named_file::{tell_unnamed, tell_unsaved, write_named};
use crate::wrong_line_hints::tell_hint;
use shm_debug::Session;
use shm_place::PageId;
use std::alloc::{AllocError, Allocator};

impl<A: Allocator + Copy> Dialog<A> {
    /// Does what a line asks for, without its line feed, and answers whether it was `quit`, which has no answer of its own. The answer to a
    /// wrong line shows where it goes wrong and what could stand there.
    ///
    /// `save` writes the whole script under the name in the line, or nothing, and `notes` all notes; each says whether it did, and writes
    /// nothing else where memory is refused. Which printable characters a table or a wrong place's hint has, no clause says.
    pub fn obey<S: SaveFile>(
        &mut self,
        typed: &[u8],
        files: &mut S,
        out: &mut Vec<u8, A>,
    ) -> Result<bool, AllocError>
        ensures obeyed { OnOk result (ObeyedTyped (S.gives files.old) typed.now self.old (command_of typed.now) self.new out.old.items out.new.items) }
        ensures quits { IfOk result (λ quits. quits ≡ is_quit (command_of typed.now)) }
        ensures halted { OnErr result (HaltedTyped self.old (command_of typed.now) self.new) }
        ensures saves { is_save (command_of typed.now) ≡ true
            → OnOk result (SavesTyped self.old.standing typed.now (S.saves files.old) (S.saves files.new) out.old.items out.new.items) }
        ensures saves_notes { is_notes (command_of typed.now) ≡ true
            → OnOk result (SavesNotes self.old.standing self.old.notes typed.now (S.saves files.old) (S.saves files.new) out.old.items out.new.items) }
        ensures halts_save { is_save (command_of typed.now) ≡ true
            → OnErr result (HaltsScript self.old.standing typed.now (S.saves files.old) (S.saves files.new)) }
        ensures halts_notes { is_notes (command_of typed.now) ≡ true
            → OnErr result (HaltsNotes self.old.standing self.old.notes typed.now (S.saves files.old) (S.saves files.new)) }
        ensures unsaved { is_save (command_of typed.now) ≡ false → is_notes (command_of typed.now) ≡ false → files.new ≡ files.old }
    {
        let Some(command) = parse_command(typed) else {
            tell_hint(out, typed)?;
            return Ok(false);
        };
        let quits = ends(&command);
        self.carry_out(command, typed, files, out)?;
        Ok(quits)
    }

    fn carry_out<S: SaveFile>(
        &mut self,
        command: Command,
        typed: &[u8],
        files: &mut S,
        out: &mut Vec<u8, A>,
    ) -> Result<(), AllocError>
        requires { IsCommand command }
        ensures obeyed { OnOk result (Obeyed (S.gives files.old) typed.now self.old command self.new out.old.items out.new.items) }
        ensures halted { OnErr result (HaltedCommand self.old command self.new) }
        ensures saves { is_save (Some command) ≡ true
            → OnOk result (SavesTyped self.old.standing typed.now (S.saves files.old) (S.saves files.new) out.old.items out.new.items) }
        ensures saves_notes { is_notes (Some command) ≡ true
            → OnOk result (SavesNotes self.old.standing self.old.notes typed.now (S.saves files.old) (S.saves files.new) out.old.items out.new.items) }
        ensures halts_save { is_save (Some command) ≡ true
            → OnErr result (HaltsScript self.old.standing typed.now (S.saves files.old) (S.saves files.new)) }
        ensures halts_notes { is_notes (Some command) ≡ true
            → OnErr result (HaltsNotes self.old.standing self.old.notes typed.now (S.saves files.old) (S.saves files.new)) }
        ensures unsaved { is_save (Some command) ≡ false → is_notes (Some command) ≡ false → files.new ≡ files.old }
    {
        match command {
            Command::Line(line) => self.act(line, out),
            Command::Undo => self.undo(out),
            Command::Run(most) => self.run(most, out),
            Command::Save => self.save(typed, files, out),
            Command::Open => self.open(typed, files, out),
            Command::Note => self.note(typed, out),
            Command::Notes => self.save_notes(typed, files, out),
            Command::Help => out.extend_from_slice(HELP.as_bytes()),
            Command::Quit => Ok(()),
            Command::Flight => self.show(View::Flight, out),
            Command::Sites => self.show(View::Pages, out),
            Command::Book(page) => self.show(View::Book(page), out),
            Command::Segments => self.show(View::Segments, out),
        }
    }

    fn run(&mut self, most: u32, out: &mut Vec<u8, A>) -> Result<(), AllocError>
        ensures runs { OnOk result (Runs most self.old.standing self.new.standing out.old.items out.new.items) }
        ensures halted { OnErr result (HaltedRun most self.old.standing self.new.standing) }
        ensures notes { self.new.notes ≡ self.old.notes }
    {
        let alloc = self.alloc;
        match &mut self.session {
            None => out.extend_from_slice(NOT_BEGUN.as_bytes()),
            Some(session) => run_on(session, alloc, most, out),
        }
    }

    fn undo(&mut self, out: &mut Vec<u8, A>) -> Result<(), AllocError>
        ensures told { OnOk result (out.new.items ≡ out.old.items ++ told_undo self.old.standing) }
        ensures next { OnOk result (self.new ≡ standing_now self.old (next_undo self.old.standing)) }
        ensures halted { OnErr result ((self.new.standing ≡ self.old.standing) ⊎ (self.new.standing ≡ next_undo self.old.standing)) }
        ensures notes { OnErr result (LeavesNotes self.old self.new) }
    {
        let done = undo_in(&mut self.session, self.alloc, out);
        self.drop_gone_notes();
        done
    }

    fn show(&self, view: View, out: &mut Vec<u8, A>) -> Result<(), AllocError>
        ensures { OnOk result (ShowsStanding self.now.standing out.old.items out.new.items) }
    {
        match &self.session {
            None => out.extend_from_slice(NOT_BEGUN.as_bytes()),
            Some(session) => show_view(session, view, out),
        }
    }

    fn open<S: SaveFile>(
        &mut self,
        typed: &[u8],
        files: &S,
        out: &mut Vec<u8, A>,
    ) -> Result<(), AllocError>
        ensures opened { OnOk result (OpensTyped (S.gives files.now) (file_named typed.now) self.old self.new out.old.items out.new.items) }
        ensures halted { OnErr result (self.new ≡ self.old) }
    {
        match file_name(typed) {
            Some(name) => self.open_file(name, files, out),
            None => out.extend_from_slice(b"not opened: the file's name is no text\n"),
        }
    }

    fn save<S: SaveFile>(
        &self,
        typed: &[u8],
        files: &mut S,
        out: &mut Vec<u8, A>,
    ) -> Result<(), AllocError>
        ensures tells { OnOk result (TellsOfStanding self.now.standing out.old.items out.new.items) }
        ensures saves { OnOk result (SavesTyped self.now.standing typed.now (S.saves files.old) (S.saves files.new) out.old.items out.new.items) }
        ensures halted { OnErr result (HaltsScript self.now.standing typed.now (S.saves files.old) (S.saves files.new)) }
    {
        match &self.session {
            None => out.extend_from_slice(NOT_BEGUN.as_bytes()),
            Some(session) => save_to(session, self.alloc, typed, files, out),
        }
    }
}

/// Takes the last change back, if sites stand.
fn undo_in<A: Allocator + Copy>(
    session: &mut Option<Session<A>>,
    alloc: A,
    out: &mut Vec<u8, A>,
) -> Result<(), AllocError>
    ensures told { OnOk result (out.new.items ≡ out.old.items ++ told_undo session.old) }
    ensures next { OnOk result (session.new ≡ next_undo session.old) }
    ensures halted { OnErr result ((session.new ≡ session.old) ⊎ (session.new ≡ next_undo session.old)) }
{
    match session {
        None => out.extend_from_slice(NOT_BEGUN.as_bytes()),
        Some(session) => undo_on(session, alloc, out),
    }
}

/// Checks that the session ends with it.
fn ends(command: &Command) -> bool
    ensures { result ≡ is_quit (Some command.now) }
{
    match command {
        Command::Quit => true,
        _ => false,
    }
}

/// The tables of the prompt.
#[derive(Clone, Copy)]
enum View {
    Flight,
    Pages,
    Book(PageId),
    Segments,
}

/// Delivers, and says whether nothing is on its way.
fn run_on<A: Allocator + Copy>(
    session: &mut Session<A>,
    alloc: A,
    most: u32,
    out: &mut Vec<u8, A>,
) -> Result<(), AllocError>
    ensures ran { OnOk result (Ran most session.old session.new out.old.items out.new.items) }
    ensures halted { OnErr result (SomeDelivered most session.old session.new) }
{
    let quiet = deliver_all(session, alloc, most, out)?;
    end_run(out, most, quiet)?;
    Ok(())
}

/// Says that nothing is on its way, or that the bound was reached.
fn end_run<A: Allocator + Copy>(
    out: &mut Vec<u8, A>,
    most: u32,
    quiet: bool,
) -> Result<(), AllocError>
    ensures { OnOk result (out.new.items ≡ out.old.items ++ run_end most quiet) }
{
    if quiet {
        return out.extend_from_slice(b"nothing is on its way\n");
    }
    let text = format!(in *out.allocator();
        "stopped at the bound of {most}: more is on its way\n"
    )?;
    out.extend_from_slice(text.as_bytes())
}

fn show_view<A: Allocator + Copy>(
    session: &Session<A>,
    view: View,
    out: &mut Vec<u8, A>,
) -> Result<(), AllocError>
    ensures { OnOk result (TellsPlain out.old.items out.new.items) }
{
    let mut text = String::new(*out.allocator());
    match view {
        View::Flight => list_flight(&mut text, session.world())?,
        View::Pages => show_pages(&mut text, session.world())?,
        View::Book(page) => show_book(&mut text, session.world(), page)?,
        View::Segments => list_segments(&mut text, session.world())?,
    }
    tell_plain(text.as_bytes(), out)
}

/// Saves the script of the events that stand to the file that the line names, and says so or why not.
fn save_to<A: Allocator + Copy, S: SaveFile>(
    session: &Session<A>,
    alloc: A,
    typed: &[u8],
    files: &mut S,
    out: &mut Vec<u8, A>,
) -> Result<(), AllocError>
    ensures tells { OnOk result (TellsMore out.old.items out.new.items) }
    ensures saves { OnOk result (SavesScript session.now (file_named typed.now) (S.saves files.old) (S.saves files.new) out.old.items out.new.items) }
    ensures halted { OnErr result (MayTry (file_named typed.now) (text_of_lines (lines_of session.now)) (S.saves files.old) (S.saves files.new)) }
{
    let Some(name) = file_name(typed) else {
        return tell_unnamed(out);
    };
    match saved_script(alloc, session) {
        Ok(script) => write_named(script.as_slice(), name, files, out),
        Err(refusal) => tell_refusal(refusal, out),
    }
}

fn tell_refusal<A: Allocator + Copy>(
    refusal: SaveRefusal,
    out: &mut Vec<u8, A>,
) -> Result<(), AllocError>
    ensures { OnOk result (out.new.items ≡ out.old.items ++ not_saved (refusal_words refusal ++ codes "\n")) }
{
    let text = format!(in *out.allocator(); "{refusal}\n")?;
    tell_unsaved(text.as_bytes(), out)
}
