//! Says more of a wrong line than the place where it can't be read on.
ghost use Rattle.std.specs.Prelude.{◌≡◌, ◌==◌, if◌then◌else◌, is_some, None, Some};
ghost use Rattle.shm_lines.specs.declared.hints.remark.Remark.TheVariants.{FirstLine, OfWorkload, Outside};
ghost use Rattle.shm_lines.specs.Remarks as said;
ghost use Rattle.shm_lines.specs.Workload.{access_of as said_access, preset_of as said_preset};
ghost use Rattle.shm_place.specs.Limits.{pages as most_pages};
ghost use Rattle.shm_model.specs.Book.{max_sites};

use crate::hints::remark::Remark;
use crate::hints::workload_line::{access_of, preset_of};
use crate::script_line::Line;
use crate::script_line_parser::read;
use shm_place::{MAX_SITES, PAGES, Sites};

/// Says what the wrong line of this number, from 1, is in a script.
pub fn remark_on_script_line(number: u64, line: &[u8]) -> Option<Remark>
    ensures { result ≡ said.script_remark number line.now }
{
    match remark_on_form(line) {
        Some(remark) => Some(remark),
        None => remark_on_read(number, is_of_workload(line), read(line)),
    }
}

/// Says what the wrong line of this number, from 1, is in a workload, however many sites and pages there are.
pub fn remark_on_workload_line(number: u64, line: &[u8]) -> Option<Remark>
    ensures { result ≡ said.workload_remark number line.now }
{
    if let Some(remark) = remark_on_form(line) {
        return Some(remark);
    }
    if is_first_of_workload(line) {
        return Some(remark_on_place(number == 1));
    }
    if is_access(line) {
        return Some(remark_on_access(number));
    }
    if is_of_script(line) {
        return Some(Remark::OfScript);
    }
    None
}

fn remark_on_form(line: &[u8]) -> Option<Remark>
    ensures { result ≡ said.form_remark line.now }
{
    if line.is_empty() {
        return Some(Remark::Blank);
    }
    if line[0] == b'#' || line[0] == b'/' {
        return Some(Remark::Comment);
    }
    if line[line.len() - 1] == b'\r' {
        return Some(Remark::CarriageReturn);
    }
    None
}

/// Says what a script's line is that was read so, and a workload may have or not.
fn remark_on_read(number: u64, is_of_workload: bool, read: Option<Line>) -> Option<Remark>
    ensures { result ≡ said.read_remark number is_of_workload read }
{
    match read {
        Some(line) => Some(remark_on_place(line.may_stand(number))),
        None => remark_unread(is_of_workload),
    }
}

/// Says what a line is that no script has, and a workload may have or not.
fn remark_unread(is_of_workload: bool) -> Option<Remark>
    ensures { result ≡ (if is_of_workload then Some OfWorkload else None) }
{
    if is_of_workload {
        return Some(Remark::OfWorkload);
    }
    None
}

/// The remark on a line that can be read, by whether it is allowed there.
fn remark_on_place(stands: bool) -> Remark
    ensures { result ≡ said.place_remark stands }
{
    if stands {
        return Remark::Unended;
    }
    Remark::FirstLine
}

/// Says what an access is that some workload may have.
fn remark_on_access(number: u64) -> Remark
    ensures { result ≡ (if number == 1 then FirstLine else Outside) }
{
    if number == 1 {
        return Remark::FirstLine;
    }
    Remark::Outside
}

fn is_of_workload(line: &[u8]) -> bool
    ensures { result ≡ said.is_of_workload line.now }
{
    is_first_of_workload(line) || is_access(line)
}

fn is_of_script(line: &[u8]) -> bool
    ensures { result ≡ said.is_of_script line.now }
{
    read(line).is_some()
}

fn is_first_of_workload(line: &[u8]) -> bool
    ensures { result ≡ is_some (said_preset line.now) }
{
    preset_of(line).is_some()
}

/// Checks that the line is an access of some workload.
fn is_access(line: &[u8]) -> bool
    ensures { result ≡ is_some (said_access max_sites most_pages line.now) }
{
    match Sites::new(MAX_SITES) {
        Ok(sites) => access_of(sites, PAGES, line).is_some(),
        Err(_) => false,
    }
}
