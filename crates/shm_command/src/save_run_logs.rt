//! The logs of a run, as files.
ghost use Rattle.std.specs.Prelude.{◌≡◌, IfErr, IfOk, OnOk, string_bytes};
ghost use Rattle.shm_command.specs.Kept.{kept_log, kept_logs, name_of_log, AddsAll};
ghost use Rattle.shm_prompt.specs.Saves.{Adds};
ghost use Rattle.shm_report.specs.Causes.{IsOther};

use shm_place::Sites;
use shm_prompt::SaveFile;
use shm_report::{ReportFault, log_text};
use shm_sites::SiteLog;
use std::alloc::{AllocError, Global};
use std::fs::OpenOptions;
use std::rt::Files;

/// Why no log, or no outcome's script, can be saved.
#[derive(Drop)]
pub enum Unlogged {
    /// An allocation was refused.
    OutOfMemory,
    /// The file of this name couldn't be opened, or made.
    Unopened(String),
}

/// Opens the file of each site's log in this folder, and makes it where it isn't there; what a file has stays. At the first that can't be
/// opened it ends.
pub fn open_logs<R: AllocGlobal + Files>(
    rt: &R,
    folder: &str,
    sites: Sites,
) -> Result<(), Unlogged> {
    'sites: for site in 0..sites.count() {
        match open_log(rt, folder, site) {
            Ok(()) => {}
            Err(unlogged) => return Err(unlogged),
        }
    }
    Ok(())
}

fn open_log<R: AllocGlobal + Files>(rt: &R, folder: &str, site: u32) -> Result<(), Unlogged> {
    let Ok(name) = name_of(rt.alloc(), folder, site) else {
        return Err(Unlogged::OutOfMemory);
    };
    open_file(rt, name)
}

/// Opens the file of this name, and makes it where it isn't there; what it has stays.
pub(crate) fn open_file<R: AllocGlobal + Files>(rt: &R, name: String) -> Result<(), Unlogged> {
    let opened = OpenOptions::new()
        .append(true)
        .create(true)
        .open(rt, name.as_str());
    match opened {
        Ok(_) => Ok(()),
        Err(_) => Err(Unlogged::Unopened(name)),
    }
}

/// Saves each site's log in this folder, which exists: `site-0.log`, and so on. At the first that can't be saved it ends.
pub fn save_logs<F: SaveFile>(
    alloc: Global,
    folder: &str,
    logs: &[SiteLog],
    files: &mut F,
) -> Result<(), ReportFault>
    ensures saved { OnOk result (AddsAll (F.saves files.old) (F.saves files.new) (kept_logs folder.now logs.now)) }
    ensures fault { IfErr result IsOther }
{
    'logs: for log in logs {
        match save_log(alloc, folder, log, files) {
            Ok(()) => {}
            Err(fault) => return Err(fault),
        }
    }
    Ok(())
}

fn save_log<F: SaveFile>(
    alloc: Global,
    folder: &str,
    log: &SiteLog,
    files: &mut F,
) -> Result<(), ReportFault>
    ensures saved { OnOk result (Adds (F.saves files.old) (F.saves files.new) (kept_log folder.now log.now)) }
    ensures fault { IfErr result IsOther }
{
    let Ok(name) = name_of(alloc, folder, log.site().0) else {
        return Err(ReportFault::OutOfMemory);
    };
    let Ok(text) = log_text(alloc, log) else {
        return Err(ReportFault::OutOfMemory);
    };
    match files.save(name.as_str(), text.as_bytes()) {
        Ok(()) => Ok(()),
        Err(_) => Err(ReportFault::WriteFault),
    }
}

/// The file of a site's log. A folder without a name is the one where the program runs.
fn name_of(alloc: Global, folder: &str, site: u32) -> Result<String, AllocError>
    ensures { IfOk result (λ name. string_bytes name ≡ name_of_log folder.now site) }
{
    if folder.is_empty() {
        return format!(in alloc; "site-{site}.log");
    }
    format!(in alloc; "{folder}/site-{site}.log")
}
