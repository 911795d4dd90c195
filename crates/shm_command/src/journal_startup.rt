//! The file of a site's journal: it is as it was asked for, one process alone has it, and what was never durable at its end is cut off.
ghost use Rattle.std.specs.Prelude.{◌≡◌, ◌≤◌, ◌<◌, ℕ, List, if◌then◌else◌, false, not, true, IfErr, IfOk, IfSome, OnErr, OnOk};
ghost use Rattle.shm_journal.specs.DeskFrom.{desk_from};
ghost use Rattle.shm_journal.specs.HeaderOf.{header_of};
ghost use Rattle.shm_journal.specs.Recovers.{ReadsAll, Recovers};
ghost use Rattle.shm_command.specs.Begun.{BeginsKept, FailsBehind, IsNotAsked, IsRefused, ReadsUnbegun, header_at, start_at};
ghost use Rattle.shm_command.specs.Served.{IsUnbegun};
ghost use Rattle.shm_command.specs.TakenAgain.{IsTakenAgain};
ghost use Rattle.shm_process.specs.DeskOf.{desk_of};
ghost use Rattle.shm_process.specs.NodeOf.{node_of};
ghost use Rattle.shm_seal.specs.Seal.{cluster_of};
ghost use Rattle.shm_seal.specs.SealOf.{seal_of};

use crate::replayed_steps_notice::TakenAgain;
use crate::site_error::SiteFault;
use shm_batches::{Chain, Extent};
use shm_journal::{Header, Recovered, open_desk, recover};
use shm_place::{PAGES, SiteId, Sites};
use shm_process::{Desk, Start};
use shm_seal::Seal;
use std::alloc::Global;
use std::fs::{self, File, OpenFile, OpenOptions, TryLockError};
use std::io::{self, ErrorKind, Read};
use std::rt::Files;

/// A file that one process alone may take.
pub trait Lock {
    /// Takes it, until it is closed, if no other process has.
    fn lock_alone(&self) -> Result<(), TryLockError>;
}

impl Lock for File {
    fn lock_alone(&self) -> Result<(), TryLockError> {
        self.try_lock()
    }
}

/// A journal that is asked for.
#[derive(Clone, Copy)]
pub(crate) struct Kept<'a> {
    /// Its file.
    pub(crate) name: &'a str,
    /// Whether the site begins the journal, or goes on with it.
    pub(crate) begins: bool,
    /// How many bytes it has at least where it is made shorter; 0: it never is.
    pub(crate) shorten_at: u64,
    /// Whether the whole one then goes, or is kept under a name with a number.
    pub(crate) forgets: bool,
}

impl<'a> Kept<'a> {
    /// The journal of this name, which is begun and stays as long as it is.
    pub(crate) fn plain(name: &'a str) -> Kept<'a>
        ensures begun { result.begins ≡ false }
        ensures stays { result.shorten_at ≡ 0 }
    {
        Kept {
            name,
            begins: false,
            shorten_at: 0,
            forgets: false,
        }
    }
}

/// A site that can begin with its journal.
#[derive(Drop)]
pub(crate) struct Begun {
    /// Its desk.
    pub(crate) desk: Desk,
    /// How many bytes the journal has. They are durable.
    pub(crate) durable: u64,
    /// Its batches.
    pub(crate) chain: Chain,
    /// The count of what the site took again.
    pub(crate) again: TakenAgain,
}

/// Looks at the journal's name: it has to name a plain file or, if the journal is to be begun, may name nothing. A pipe or a device isn't
/// even opened.
fn look_at<R: Files>(rt: &R, kept: Kept<'_>) -> Result<(), SiteFault>
    ensures { IfErr result IsUnbegun }
{
    match fs::metadata(rt, kept.name) {
        Ok(found) if found.is_file() => Ok(()),
        Ok(_) => Err(SiteFault::NoFile),
        Err(error) if error.kind() != ErrorKind::NotFound => Err(SiteFault::Unopened),
        Err(_) if kept.begins => Ok(()),
        Err(_) => Err(SiteFault::Missing),
    }
}

/// Opens the journal's file. Makes it, if the journal is to be begun and there is none.
pub(crate) fn open_journal<R: Files>(rt: &R, kept: Kept<'_>) -> Result<R::File, SiteFault>
where
    R::File: Lock,
    ensures { IfErr result IsUnbegun }
{
    match look_at(rt, kept) {
        Ok(()) => {}
        Err(fault) => return Err(fault),
    }
    let opened = OpenOptions::new()
        .read(true)
        .append(true)
        .create(kept.begins)
        .open(rt, kept.name);
    let Ok(file) = opened else {
        return Err(SiteFault::Unopened);
    };
    match file.lock_alone() {
        Ok(()) => Ok(file),
        Err(TryLockError::WouldBlock) => Err(SiteFault::Taken),
        Err(TryLockError::Error(_)) => Err(SiteFault::Unopened),
    }
}

/// Begins a site with what it finds in the lines of its journal, whose file is whole so far. There has to be no whole line exactly where the
/// journal is to be begun. Cuts off what stands behind what is whole, and makes that durable; for a new journal it makes the file's name
/// durable too. `since` is when the process started, in seconds since 1970.
pub(crate) fn begin_kept<R: AllocGlobal + Files, J: Read, F: OpenFile>(
    rt: &R,
    sites: Sites,
    me: SiteId,
    pages: u32,
    seal: Seal,
    kept: Kept<'_>,
    since: u64,
    extent: Extent,
    lines: &mut J,
    file: &F,
) -> Result<Begun, SiteFault>
    requires below { me < sites }
    requires from { 1 ≤ pages }
    requires to { pages ≤ PAGES }
    ensures whole { IfOk result (λ begun. (begun.durable ≡ extent.bytes) × (begun.chain ≡ extent.chain)) }
    ensures begun { IfOk result (λ begun. (journal : List ℕ) × IfSome (J.remaining lines.old) (λ known. journal ≡ known)
        × BeginsKept kept.entry.begins (seal_of seal) (header_at sites me pages (cluster_of (seal_of seal))) since journal (desk_of begun.desk)) }
    ensures again { IfOk result (λ begun. IsTakenAgain (header_at sites me pages (cluster_of (seal_of seal))) (J.remaining lines.old) begun.again) }
    ensures all { OnOk result (ReadsAll (J.remaining lines.old) (J.remaining lines.new)) }
    ensures left { IfErr result (ReadsUnbegun (header_at sites me pages (cluster_of (seal_of seal))) (J.remaining lines.old) (J.remaining lines.new)) }
    ensures refused { IfErr result (IsRefused kept.entry.begins (header_at sites me pages (cluster_of (seal_of seal))) (J.remaining lines.old)) }
    ensures unbegun { IfErr result IsUnbegun }
{
    let found = match recovered_as_asked(rt.alloc(), sites, me, pages, &seal, kept.begins, lines) {
        Ok(found) => found,
        Err(fault) => return Err(fault),
    };
    let again = TakenAgain {
        steps: found.node.steps(),
        clock: found.node.clock(),
        batches: extent.chain.number(),
        torn: bytes_behind(file, extent.bytes),
    };
    let header = header_of_site(sites, me, pages, &seal);
    match open_durable(
        rt,
        header,
        seal,
        kept.name,
        since,
        extent.bytes,
        found,
        file,
    ) {
        Ok(desk) => Ok(Begun {
            desk,
            durable: extent.bytes,
            chain: extent.chain,
            again,
        }),
        Err(fault) => Err(fault),
    }
}

/// Recovers a site from the lines of its journal. There has to be no whole line exactly where the journal is to be begun.
fn recovered_as_asked<J: Read>(
    alloc: Global,
    sites: Sites,
    me: SiteId,
    pages: u32,
    seal: &Seal,
    begins: bool,
    lines: &mut J,
) -> Result<Recovered, SiteFault>
    requires below { me < sites }
    requires from { 1 ≤ pages }
    requires to { pages ≤ PAGES }
    ensures asked { IfOk result (λ found. found.is_new ≡ begins) }
    ensures found { IfOk result (λ found. Recovers (header_at sites me pages (cluster_of (seal_of seal.now))) (J.remaining lines.old) (Ok found)) }
    ensures all { OnOk result (ReadsAll (J.remaining lines.old) (J.remaining lines.new)) }
    ensures left { IfErr result (ReadsUnbegun (header_at sites me pages (cluster_of (seal_of seal.now))) (J.remaining lines.old) (J.remaining lines.new)) }
    ensures refused { IfErr result (IsNotAsked begins (header_at sites me pages (cluster_of (seal_of seal.now))) (J.remaining lines.old)) }
    ensures unbegun { IfErr result IsUnbegun }
{
    let cluster = seal.name();
    let found = match recover(alloc, sites, me, pages, cluster, lines) {
        Ok(found) => found,
        Err(fault) => return Err(SiteFault::Unrecovered(fault)),
    };
    if is_as_asked(begins, found.is_new) {
        return Ok(found);
    }
    if begins {
        return Err(SiteFault::Existing);
    }
    Err(SiteFault::Blank)
}

/// Makes durable what was found of a journal: cuts its file to this many bytes and, if it is new, makes its name durable. Then opens the
/// site's desk.
fn open_durable<R: AllocGlobal + Files, F: OpenFile>(
    rt: &R,
    header: Header,
    seal: Seal,
    name: &str,
    since: u64,
    bytes: u64,
    found: Recovered,
    file: &F,
) -> Result<Desk, SiteFault>
    ensures desk { IfOk result (λ desk. desk_of desk ≡ desk_from (header_of header) (seal_of seal) found.is_new (node_of found.node) (start_at since found.whole)) }
    ensures refused { IfErr result (FailsBehind found.is_new (node_of found.node)) }
    ensures unbegun { IfErr result IsUnbegun }
{
    let Recovered {
        node,
        whole,
        is_new,
    } = found;
    if cut(file, bytes).is_err() {
        return Err(SiteFault::Uncut);
    }
    if list_new(rt, name, is_new).is_err() {
        return Err(SiteFault::Unlisted);
    }
    let start = Start {
        journal: whole,
        since,
    };
    match open_desk(rt.alloc(), header, seal, is_new, node, start) {
        Ok(desk) => Ok(desk),
        Err(fault) => Err(SiteFault::Unopenable(fault)),
    }
}

/// The header of this site's journal.
pub(crate) fn header_of_site(sites: Sites, me: SiteId, pages: u32, seal: &Seal) -> Header
    ensures { header_of result ≡ header_at sites me pages (cluster_of (seal_of seal.now)) }
{
    Header {
        sites: sites.count(),
        me: me.0,
        pages,
        cluster: seal.name(),
    }
}

/// Checks that a journal is new exactly where it is to be begun.
fn is_as_asked(begins: bool, is_new: bool) -> bool
    ensures { result ≡ (if begins then is_new else not is_new) }
{
    if begins { is_new } else { !is_new }
}

/// Makes durable, of a new file, that its folder has it.
pub(crate) fn list_new<R: AllocGlobal + Files>(rt: &R, name: &str, is_new: bool) -> io::Result<()>
    ensures { OnErr result (is_new ≡ true) }
{
    if !is_new {
        return Ok(());
    }
    let file = fs::canonicalize(rt, name)?;
    match file.parent() {
        Some(folder) => File::open(rt, folder)?.sync_all(),
        None => Ok(()),
    }
}

/// The number of bytes behind this many; 0 where the file doesn't tell its length.
fn bytes_behind<F: OpenFile>(file: &F, bytes: u64) -> u64 {
    match file.metadata() {
        Ok(found) => found.len().saturating_sub(bytes),
        Err(_) => 0,
    }
}

/// Cuts the file to this many bytes, and makes that durable.
pub(crate) fn cut<F: OpenFile>(file: &F, bytes: u64) -> io::Result<()> {
    file.set_len(bytes)?;
    file.sync_all()
}
