//! A site as a process, with a journal or without.
ghost use Rattle.std.specs.Prelude.{◌≡◌, ◌≤◌, ◌<◌, None, Some, IfErr, IfOk};
ghost use Rattle.shm_journal.specs.DeskFrom.{opening_of};
ghost use Rattle.shm_process.specs.Desk.{greeting_at};
ghost use Rattle.shm_process.specs.DeskOf.{desk_of};
ghost use Rattle.shm_process.specs.Node.{new_node};
ghost use Rattle.shm_seal.specs.Seal.{cluster_of};
ghost use Rattle.shm_seal.specs.SealOf.{seal_of};
ghost use Rattle.shm_command.specs.Around.{streams};
ghost use Rattle.shm_command.specs.Begun.{header_at, start_at};
ghost use Rattle.shm_command.specs.Served.{IsServed, IsUnbegun};

use crate::elapsed_time::{milliseconds_since, seconds_since_1970};
use crate::error_text_and_status;
use crate::journal_backends::JournalFile;
use crate::journal_place::NamedFile;
use crate::journal_startup::{Begun, Kept, Lock, begin_kept, header_of_site, open_journal};
use crate::serve_stretches::{serve_kept, serve_unkept};
use crate::site_error::SiteFault;
use crate::whole_journal::{WholeJournal, may_begin, open_whole};
use shm_batches::Extent;
use shm_journal::{Header, RecoveryFault};
use shm_place::{PAGES, SiteId, Sites};
use shm_process::{Desk, Node, Start};
use shm_seal::Seal;
use std::alloc::{AllocError, Global};
use std::io::{Read, Write};
use std::rt::{Clock, Files};
use std::time::Instant;

/// Runs this site until its input ends. Without a journal, all that the site holds ends with it. Writes to `errors` if another site was begun
/// with other numbers, and how many lines weren't opened.
pub(crate) fn be_site<R: AllocGlobal + Clock, I: Read, O: Write, E: Write>(
    rt: &R,
    sites: Sites,
    me: SiteId,
    pages: u32,
    seal: Seal,
    reader: &mut I,
    out: &mut O,
    errors: &mut E,
) -> Result<(), SiteFault>
    requires below { me < sites }
    requires from { 1 ≤ pages }
    requires to { pages ≤ PAGES }
    ensures { IsServed None (seal_of seal) (header_at sites me pages (cluster_of (seal_of seal))) result (streams (I.remaining reader.old) (O.contents out.old))
        (streams (I.remaining reader.new) (O.contents out.new)) }
{
    let since = seconds_since_1970(rt);
    let Ok(desk) = begin(rt.alloc(), sites, me, pages, seal, since) else {
        return Err(SiteFault::OutOfMemory);
    };
    let mut desk = desk;
    let ended = serve_unkept(&mut desk, reader, out, errors);
    error_text_and_status::unopened(desk.counts().unopened, errors);
    drop(desk);
    ended
}

/// Runs this site until its input ends, and keeps its steps in this journal. Writes to `errors` what it takes again of a journal that it
/// goes on with and how long that took, if another site was begun with other numbers, how many lines weren't opened, and its counts at the
/// end.
pub(crate) fn be_kept_site<R: AllocGlobal + Clock + Files, I: Read, O: Write, E: Write>(
    rt: &R,
    sites: Sites,
    me: SiteId,
    pages: u32,
    seal: Seal,
    kept: Kept<'_>,
    reader: &mut I,
    out: &mut O,
    errors: &mut E,
) -> Result<(), SiteFault>
where
    R::File: Lock,
    requires below { me < sites }
    requires from { 1 ≤ pages }
    requires to { pages ≤ PAGES }
    ensures { IsServed (Some kept.entry.begins) (seal_of seal) (header_at sites me pages (cluster_of (seal_of seal))) result (streams (I.remaining reader.old) (O.contents out.old))
        (streams (I.remaining reader.new) (O.contents out.new)) }
{
    let file = match open_journal(rt, kept) {
        Ok(file) => file,
        Err(fault) => return Err(fault),
    };
    let started = Instant::now(rt).ok();
    let since = seconds_since_1970(rt);
    let whole = match open_whole(rt, kept.name) {
        Ok(whole) => whole,
        Err(unwhole) => return Err(unwhole.of_site()),
    };
    let WholeJournal { extent, mut lines } = whole;
    let header = header_of_site(sites, me, pages, &seal);
    match check_front(rt, kept, header, extent) {
        Ok(()) => {}
        Err(fault) => return Err(fault),
    }
    match begin_kept(
        rt, sites, me, pages, seal, kept, since, extent, &mut lines, &file,
    ) {
        Ok(begun) => {
            let Begun {
                desk,
                durable,
                chain,
                again,
            } = begun;
            if !kept.begins {
                error_text_and_status::taken_again(again, milliseconds_since(rt, started), errors);
            }
            let journal = JournalFile::new(rt.alloc(), file, chain, durable, kept.shorten_at);
            let mut place = NamedFile {
                rt,
                name: kept.name,
                forgets: kept.forgets,
            };
            serve_kept(desk, header, reader, out, journal, &mut place, errors)
        }
        Err(fault) => Err(fault),
    }
}

/// Checks that a file without a whole batch, in which a journal is to be begun, has no more than what a crash may leave of the first.
fn check_front<R: AllocGlobal + Files>(
    rt: &R,
    kept: Kept<'_>,
    header: Header,
    extent: Extent,
) -> Result<(), SiteFault>
    ensures { IfErr result IsUnbegun }
{
    if !kept.begins || extent.chain.number() > 0 {
        return Ok(());
    }
    match may_begin(rt, kept.name, header) {
        Ok(true) => Ok(()),
        Ok(false) => Err(SiteFault::Unrecovered(RecoveryFault::BadLine(1))),
        Err(unwhole) => Err(unwhole.of_site()),
    }
}

/// The desk of a site at which nothing has happened, in a process that started at this time, in seconds since 1970.
fn begin(
    alloc: Global,
    sites: Sites,
    me: SiteId,
    pages: u32,
    seal: Seal,
    since: u64,
) -> Result<Desk, AllocError>
    requires below { me < sites }
    requires from { 1 ≤ pages }
    requires to { pages ≤ PAGES }
    ensures { IfOk result (λ desk. desk_of desk ≡ greeting_at (seal_of seal) (new_node sites me pages)
        (opening_of (header_at sites me pages (cluster_of (seal_of seal)))) (start_at since 0)) }
{
    let node = Node::new(alloc, sites, me, pages)?;
    let header = header_of_site(sites, me, pages, &seal);
    let start = Start { journal: 0, since };
    Desk::greeting(alloc, seal, node, header.opening(), start)
}
