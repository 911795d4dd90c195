//! Which function does what the words ask for.
ghost use Rattle.std.specs.Prelude.{◌≡◌, ◌≢◌, ◌≤◌, ◌<◌, ◌⊎◌, ℕ, List, [], ◌∷◌, codes, map, option_map, true};
ghost use Rattle.shm_command.specs.Around.{streams};
ghost use Rattle.shm_command.specs.Begun.{header_at};
ghost use Rattle.shm_command.specs.Done.{Does, IsDone, IsUnrun, has_audit, is_simulation};
ghost use Rattle.shm_seal.specs.Seal.{cluster_of};
ghost use Rattle.shm_seal.specs.SealOf.{seal_of};
ghost use Rattle.shm_command.specs.Prompted.{Prompts};
ghost use Rattle.shm_command.specs.Sealed.{IsSealedSite};
ghost use Rattle.shm_command.specs.Served.{site_status, IsSite};
ghost use Rattle.shm_command.specs.Status.{Asks, AsksForAudit, Reports, Takes};
ghost use Rattle.shm_command.specs.Words.{IsOneOfSites};

use crate::args::{SealWords, Shortening, Task, parse_words};
use crate::audit_files::audit;
use crate::disk_save_file::Disk;
use crate::draw_command::picture_noted;
use crate::error_text_and_status;
use crate::journal_startup::{Kept, Lock};
use crate::journal_summary::tell_journal;
use crate::read_seal::read_seal;
use crate::recalling_input::Recalls;
use crate::replay_command::replay_from;
use crate::run_report::{Wanted, tell_run};
use crate::save_run_logs::{Unlogged, open_logs};
use crate::serve_site::{be_kept_site, be_site};
use crate::shorten_journal::shorten;
use crate::show_wrong_line::workload_fault;
use crate::simulation_report::tell_simulation;
use crate::site_error::SiteFault;
use shm_place::{PAGES, SiteId, Sites};
use shm_prompt::prompt;
use shm_seal::Seal;
use std::convert::AsStr;
use std::io::{Read, Write};
use std::rt::{Clock, Files};
use std::sync::Wait;
use std::thread::Threads;

/// Does what the words ask for, and answers the exit status: 0 done; 1 the script has a fault; 2 the words were refused; 3 memory, reading
/// or writing failed, or a file couldn't be opened, or a site's clock ended, or there was no thread, or another process has the journal; 4
/// a run gave up, or an audit found a cause. At 2 the parser's text goes to `errors`; at 1, 3 and 4 one line does, and below it a wrong
/// line that the reader recalls. A journal that isn't as the words say counts as a script with a fault: there is none, or it is begun
/// already, or it is another's.
pub fn run_words<
    R: AllocGlobal + Clock + Files + Threads + Wait + Copy + Send + Sync + 'static,
    S: AsStr,
    I: Read + Recalls,
    O: Write,
    E: Write,
>(rt: &R, words: &[S], reader: &mut I, out: &mut O, errors: &mut E) -> u8
where
    R::File: Lock,
    ensures range { result < 5 }
    ensures asked { result < 2 → Takes (map S.text words.now) }
    ensures taken { Takes (map S.text words.now) → result ≢ 2 }
    ensures plain { (name : List ℕ) → map S.text words.now ≡ name ∷ codes "replay" ∷ [] → result ≢ 2 }
    ensures done { Takes (map S.text words.now) → IsDone (map S.text words.now) (I.typed reader.old) result
        (streams (I.remaining reader.old) (O.contents out.old)) (streams (I.remaining reader.new) (O.contents out.new)) }
    ensures audit { result ≡ 4 → AsksForAudit (map S.text words.now) }
    ensures quiet { AsksForAudit (map S.text words.now) → (result ≡ 1) ⊎ (result ≡ 4) → out.new ≡ out.old }
    ensures unsimulated { Asks (codes "simulate") (map S.text words.now) → result ≡ 1 → out.new ≡ out.old }
    ensures refused { ¬ Takes (map S.text words.now) → (reader.new ≡ reader.old) × (out.new ≡ out.old) }
    ensures nothing_read { result ≡ 2 → reader.new ≡ reader.old }
    ensures nothing_written { result ≡ 2 → out.new ≡ out.old }
{
    match parse_words(rt.alloc(), words) {
        Ok(task) => carry_out(rt, task, reader, out, errors),
        Err(error) => error_text_and_status::refused_words(&error, errors),
    }
}

/// Does this task, and answers the exit status.
fn carry_out<
    R: AllocGlobal + Clock + Files + Threads + Wait + Copy + Send + Sync + 'static,
    I: Read + Recalls,
    O: Write,
    E: Write,
>(rt: &R, task: Task<'_>, reader: &mut I, out: &mut O, errors: &mut E) -> u8
where
    R::File: Lock,
    requires among { IsOneOfSites task }
    ensures range { result < 5 }
    ensures taken { result ≢ 2 }
    ensures done { Does (I.typed reader.old) task.entry result (streams (I.remaining reader.old) (O.contents out.old)) (streams (I.remaining reader.new) (O.contents out.new)) }
    ensures audit { result ≡ 4 → has_audit task.entry ≡ true }
    ensures quiet { has_audit task.entry ≡ true → (result ≡ 1) ⊎ (result ≡ 4) → out.new ≡ out.old }
    ensures unsimulated { is_simulation task.entry ≡ true → result ≡ 1 → out.new ≡ out.old }
{
    match task {
        Task::Replay { file } => replay_from(rt, file, reader, out, errors),
        Task::Run {
            sites,
            seed,
            summary,
            log,
        } => {
            let wanted = Wanted { summary, log };
            run(rt, sites, seed, &wanted, reader, out, errors)
        }
        Task::Simulate(asked) => tell_simulation(rt, &asked, reader, out, errors),
        Task::Prompt => talk(rt, reader, out, errors),
        Task::Draw {
            page,
            steps,
            notes,
            file,
        } => picture_noted(rt, page, steps, notes, file, reader, out, errors),
        Task::Site {
            sites,
            me,
            pages,
            journal,
            begins,
            seal,
            shortening,
        } => site(
            rt, sites, me, pages, journal, begins, shortening, seal, reader, out, errors,
        ),
        Task::Audit { sites, journals } => audit(rt, sites, journals.as_slice(), out, errors),
        Task::Journal { file } => tell_journal(rt, file, out, errors),
        Task::Shorten { file } => shorten(rt, file, out, errors),
    }
}

/// Answers what is typed, and answers the exit status.
fn talk<R: AllocGlobal + Files, I: Read + Recalls, O: Write, E: Write>(
    rt: &R,
    reader: &mut I,
    out: &mut O,
    errors: &mut E,
) -> u8
    ensures status { (result ≡ 0) ⊎ (result ≡ 3) }
    ensures prompted { Prompts (I.typed reader.old) result (streams (I.remaining reader.old) (O.contents out.old)) (streams (I.remaining reader.new) (O.contents out.new)) }
{
    let is_terminal = reader.is_terminal();
    match prompt(rt.alloc(), reader, out, &mut Disk { rt }, is_terminal) {
        Ok(()) => 0,
        Err(fault) => error_text_and_status::prompt_fault(fault, errors),
    }
}

/// Runs a site as a process until its input ends, and answers the exit status.
fn site<R: AllocGlobal + Clock + Files, I: Read, O: Write, E: Write>(
    rt: &R,
    sites: Sites,
    me: SiteId,
    pages: u32,
    journal: Option<&str>,
    begins: bool,
    shortening: Shortening,
    seal: SealWords<'_>,
    reader: &mut I,
    out: &mut O,
    errors: &mut E,
) -> u8
where
    R::File: Lock,
    requires below { me < sites }
    requires from { 1 ≤ pages }
    requires to { pages ≤ PAGES }
    ensures range { result < 4 }
    ensures taken { result ≢ 2 }
    ensures served { IsSealedSite seal.entry (option_map (λ file. begins) journal.entry) sites me pages result
        (streams (I.remaining reader.old) (O.contents out.old)) (streams (I.remaining reader.new) (O.contents out.new)) }
{
    match read_seal(rt, seal) {
        Ok(seal) => sealed_site(
            rt, sites, me, pages, seal, journal, begins, shortening, reader, out, errors,
        ),
        Err(fault) => error_text_and_status::seal_error(fault, errors),
    }
}

/// Runs a site under this seal as a process until its input ends, and answers the exit status.
fn sealed_site<R: AllocGlobal + Clock + Files, I: Read, O: Write, E: Write>(
    rt: &R,
    sites: Sites,
    me: SiteId,
    pages: u32,
    seal: Seal,
    journal: Option<&str>,
    begins: bool,
    shortening: Shortening,
    reader: &mut I,
    out: &mut O,
    errors: &mut E,
) -> u8
where
    R::File: Lock,
    requires below { me < sites }
    requires from { 1 ≤ pages }
    requires to { pages ≤ PAGES }
    ensures range { result < 4 }
    ensures taken { result ≢ 2 }
    ensures served { IsSite (option_map (λ file. begins) journal.entry) (seal_of seal) (header_at sites me pages (cluster_of (seal_of seal))) result
        (streams (I.remaining reader.old) (O.contents out.old)) (streams (I.remaining reader.new) (O.contents out.new)) }
{
    match journal {
        Some(name) => {
            let kept = Kept {
                name,
                begins,
                shorten_at: shortening.at,
                forgets: shortening.forgets,
            };
            let ended = be_kept_site(rt, sites, me, pages, seal, kept, reader, out, errors);
            tell_end(ended, errors)
        }
        None => {
            let ended = be_site(rt, sites, me, pages, seal, reader, out, errors);
            tell_end(ended, errors)
        }
    }
}

/// The exit status of a site's process that ended so. Writes a fault to `errors`.
fn tell_end<E: Write>(ended: Result<(), SiteFault>, errors: &mut E) -> u8
    ensures { result ≡ site_status ended }
{
    match ended {
        Ok(()) => 0,
        Err(fault) => error_text_and_status::site_fault(fault, errors),
    }
}

/// Runs a workload once the logs that are wanted can be saved, and answers the exit status.
fn run<
    R: AllocGlobal + Clock + Files + Threads + Wait + Copy + Send + Sync + 'static,
    I: Read + Recalls,
    O: Write,
    E: Write,
>(
    rt: &R,
    sites: Sites,
    seed: u32,
    wanted: &Wanted<'_>,
    reader: &mut I,
    out: &mut O,
    errors: &mut E,
) -> u8
    ensures range { result < 5 }
    ensures taken { result ≢ 2 }
    ensures reported { result ≡ 0 →
        Reports sites wanted.now.summary (I.remaining reader.old) (O.contents out.old) (O.contents out.new) }
    ensures failed { result ≢ 0 → IsUnrun sites wanted.now.summary result
        (streams (I.remaining reader.old) (O.contents out.old)) (streams (I.remaining reader.new) (O.contents out.new)) }
    ensures quiet { (result ≡ 1) ⊎ (result ≡ 4) → out.new ≡ out.old }
{
    match open_wanted(rt, sites, wanted.log) {
        Ok(()) => match tell_run(rt, sites, seed, wanted, reader, out) {
            Ok(()) => 0,
            Err(failed) => workload_fault(failed, sites, reader, errors),
        },
        Err(unlogged) => error_text_and_status::logs_fault(&unlogged, errors),
    }
}

/// Makes the logs' files ready, where a folder is named for them.
fn open_wanted<R: AllocGlobal + Files>(
    rt: &R,
    sites: Sites,
    log: Option<&str>,
) -> Result<(), Unlogged> {
    match log {
        Some(folder) => open_logs(rt, folder, sites),
        None => Ok(()),
    }
}
