//! A journal is made shorter: one that begins with its site's state takes its name, and the whole one is kept under a name with a number.
ghost use Rattle.std.specs.Prelude.{◌≡◌, ◌≢◌, ◌<◌, ◌≤◌, ◌⊎◌, IfErr, IfOk, IfSome, OnOk, string_bytes};
ghost use Rattle.std.specs.Io.KnownBytes.{Appends};
ghost use Rattle.shm_journal.specs.HeaderOf.{header_of};
ghost use Rattle.shm_command.specs.Shortening.{IsShortenedText, Shortened, shorter_text};
ghost use Rattle.shm_command.specs.declared.shortened_notice.Shorter.{Shorter as Told};
ghost use Rattle.shm_command.specs.declared.shortening_error.ShorteningFault.TheVariants as cause;

use crate::error_text_and_status;
use crate::journal_startup::{Kept, Lock, open_journal};
use crate::renew_journal::renew_kept;
use crate::shortened_notice::Shorter;
use crate::shortening_error::ShorteningFault;
use crate::site_error::SiteFault;
use crate::whole_journal::{WholeJournal, header_in, open_whole};
use shm_journal::{Header, RecoveryFault, ShortenFault, recover, shortened_journal};
use shm_place::{PAGES, SiteId, Sites};
use shm_text::write_whole;
use std::alloc::Global;
use std::fs;
use std::io::{Read, Write};
use std::rt::Files;

/// Makes the journal of this name shorter, and answers the exit status. No other process may have it.
pub(crate) fn shorten<R: AllocGlobal + Files, O: Write, E: Write>(
    rt: &R,
    name: &str,
    out: &mut O,
    errors: &mut E,
) -> u8
where
    R::File: Lock,
    ensures range { result < 4 }
    ensures taken { result ≢ 2 }
    ensures shortened { Shortened result (O.contents out.old) (O.contents out.new) }
{
    match shorten_and_tell(rt, name, out) {
        Ok(()) => 0,
        Err(fault) => error_text_and_status::shortening_fault(fault, name, errors),
    }
}

fn shorten_and_tell<R: AllocGlobal + Files, O: Write>(
    rt: &R,
    name: &str,
    out: &mut O,
) -> Result<(), ShorteningFault>
where
    R::File: Lock,
    ensures told { OnOk result ((shorter : Told) × Appends (O.contents out.old) (O.contents out.new) (shorter_text shorter)) }
    ensures quiet { IfErr result (λ fault. (fault ≡ cause.WriteFault) ⊎ (out.new ≡ out.old)) }
{
    match shorten_file(rt, name) {
        Ok(shorter) => tell(rt.alloc(), shorter, out),
        Err(fault) => Err(fault),
    }
}

fn tell<O: Write>(alloc: Global, shorter: Shorter, out: &mut O) -> Result<(), ShorteningFault>
    ensures told { OnOk result (Appends (O.contents out.old) (O.contents out.new) (shorter_text shorter)) }
    ensures quiet { IfErr result (λ fault. (fault ≡ cause.WriteFault) ⊎ (out.new ≡ out.old)) }
{
    let Ok(text) = format!(in alloc; "{shorter}") else {
        return Err(ShorteningFault::OutOfMemory);
    };
    match write_whole(out, text.as_bytes()) {
        Ok(()) => {}
        Err(_) => return Err(ShorteningFault::WriteFault),
    }
    match out.flush() {
        Ok(()) => Ok(()),
        Err(_) => Err(ShorteningFault::WriteFault),
    }
}

/// Makes the journal of this name shorter. It is locked until this is done.
fn shorten_file<R: AllocGlobal + Files>(rt: &R, name: &str) -> Result<Shorter, ShorteningFault>
where
    R::File: Lock,
{
    let locked = match open_journal(rt, Kept::plain(name)) {
        Ok(file) => file,
        Err(fault) => return Err(ShorteningFault::Unread(fault)),
    };
    let shorter = match read_shortened(rt, name) {
        Ok(text) => take_place(rt, name, text.as_bytes()),
        Err(fault) => Err(fault),
    };
    drop(locked);
    shorter
}

/// The lines of the journal that is to have this name.
fn read_shortened<R: AllocGlobal + Files>(rt: &R, name: &str) -> Result<String, ShorteningFault> {
    let whole = match open_whole(rt, name) {
        Ok(whole) => whole,
        Err(unwhole) => return Err(ShorteningFault::Unread(unwhole.of_site())),
    };
    let WholeJournal { extent, mut lines } = whole;
    if extent.chain.number() == 0 {
        return Err(ShorteningFault::Unread(SiteFault::Blank));
    }
    match header_in(rt, name) {
        Some(header) => shortened_text(rt.alloc(), header, &mut lines),
        None => Err(bad_header()),
    }
}

/// The lines of a journal of this header that goes on from where these lines lead.
pub(crate) fn shortened_text<J: Read>(
    alloc: Global,
    header: Header,
    lines: &mut J,
) -> Result<String, ShorteningFault>
    ensures { IfOk result (λ text. IsShortenedText (header_of header) (J.remaining lines.old) (string_bytes text)) }
{
    match site_of(header) {
        Some((sites, me)) => shortened_from(alloc, header, sites, me, lines),
        None => Err(bad_header()),
    }
}

/// The same, of this header's site.
fn shortened_from<J: Read>(
    alloc: Global,
    header: Header,
    sites: Sites,
    me: SiteId,
    lines: &mut J,
) -> Result<String, ShorteningFault>
    requires sites { sites ≡ header.sites }
    requires me { me ≡ header.me }
    requires below { me < sites }
    requires from { 1 ≤ header.pages }
    requires to { header.pages ≤ PAGES }
    ensures { IfOk result (λ text. IsShortenedText (header_of header) (J.remaining lines.old) (string_bytes text)) }
{
    let found = match recover(alloc, sites, me, header.pages, header.cluster, lines) {
        Ok(found) => found,
        Err(fault) => return Err(ShorteningFault::Unread(SiteFault::Unrecovered(fault))),
    };
    match shortened_journal(alloc, header, &found.node) {
        Ok(text) => Ok(text),
        Err(ShortenFault::OutOfMemory) => Err(ShorteningFault::OutOfMemory),
        Err(_) => Err(ShorteningFault::Untold),
    }
}

/// The sites that the header names, and which of them it is, where there can be such a site.
fn site_of(header: Header) -> Option<(Sites, SiteId)>
    ensures sites { IfSome result (λ site. site.0 ≡ header.sites) }
    ensures me { IfSome result (λ site. site.1 ≡ header.me) }
    ensures below { IfSome result (λ site. header.me < header.sites) }
    ensures from { IfSome result (λ site. 1 ≤ header.pages) }
    ensures to { IfSome result (λ site. header.pages ≤ PAGES) }
{
    let sites = Sites::new(header.sites).ok()?;
    if header.me >= header.sites || header.pages < 1 || header.pages > PAGES {
        return None;
    }
    Some((sites, SiteId(header.me)))
}

/// The first line is no header of a site.
fn bad_header() -> ShorteningFault {
    ShorteningFault::Unread(SiteFault::Unrecovered(RecoveryFault::BadLine(1)))
}

/// Has a journal of these lines take the name of this one, which is kept under a name with a number. The whole one has the name until then.
fn take_place<R: AllocGlobal + Files>(
    rt: &R,
    name: &str,
    lines: &[u8],
) -> Result<Shorter, ShorteningFault>
where
    R::File: Lock,
{
    let Ok(found) = fs::metadata(rt, name) else {
        return Err(ShorteningFault::Unread(SiteFault::Unopened));
    };
    match renew_kept(rt, name, lines) {
        Ok((kept, renewed)) => {
            let is = renewed.bytes;
            drop(renewed);
            Ok(Shorter {
                kept,
                was: found.len(),
                is,
            })
        }
        Err(fault) => Err(fault),
    }
}
