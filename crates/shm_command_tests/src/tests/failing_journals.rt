//! A site whose journal's file fails: nothing that isn't durable is told, and it is cut off again.
use shm_batches::{Chain, write_batch};
use shm_command::{JournalFile, Place, Renewed, ShorteningFault, SiteFault, serve_kept};
use shm_journal::{Header, ProcessFault, open_desk};
use shm_place::{SiteId, Sites};
use shm_process::{Node, Start};
use shm_seal::Seal;
use std::alloc::Global;
use std::cell::Cell;
use std::fs::{Metadata, OpenFile};
use std::io::{self, ErrorKind, Write};
use std::test::Fail;

/// The bytes of the batch with which the journal begins, and of both batches.
const BEGUN: u64 = 154;

const STORED: u64 = 321;

/// A disk with one file. It has room for so many bytes, makes them durable so often, and takes so many of the two calls of a cut.
#[derive(Drop)]
struct Disk {
    room: u64,
    syncs: Cell<u64>,
    cuts: Cell<u64>,
    bytes: Cell<u64>,
    durable: Cell<u64>,
}

/// Takes one from a count, if it isn't 0.
fn spend(count: &Cell<u64>) -> io::Result<()> {
    let Some(rest) = count.get().checked_sub(1) else {
        return Err(io::Error::from(ErrorKind::Other));
    };
    count.set(rest);
    Ok(())
}

/// Its file.
#[derive(Drop)]
struct DiskFile<'a> {
    disk: &'a Disk,
}

impl Write for DiskFile<'_> {
    fn write(&mut self, buf: &[u8]) -> io::Result<usize> {
        let bytes = self.disk.bytes.get();
        let room = self.disk.room.saturating_sub(bytes);
        if room == 0 {
            return Err(io::Error::from(ErrorKind::Other));
        }
        let count = room.min(buf.len() as u64);
        self.disk.bytes.set(bytes.saturating_add(count));
        Ok(count as usize)
    }

    fn flush(&mut self) -> io::Result<()> {
        Ok(())
    }
}

impl OpenFile for DiskFile<'_> {
    fn metadata(&self) -> io::Result<Metadata> {
        Err(io::Error::from(ErrorKind::Other))
    }

    fn set_len(&self, size: u64) -> io::Result<()> {
        spend(&self.disk.cuts)?;
        self.disk.bytes.set(size);
        Ok(())
    }

    fn sync_all(&self) -> io::Result<()> {
        spend(&self.disk.cuts)?;
        self.disk.durable.set(self.disk.bytes.get());
        Ok(())
    }

    fn sync_data(&self) -> io::Result<()> {
        spend(&self.disk.syncs)?;
        self.disk.durable.set(self.disk.bytes.get());
        Ok(())
    }
}

/// A place where a journal can't be made shorter, for this reason.
#[derive(Drop)]
struct NoPlace(ShorteningFault);

impl<'a> Place<DiskFile<'a>> for NoPlace {
    ghost use Rattle.std.specs.Prelude.{None};

    ghost journals = { λ _. None };

    fn renew(&mut self, _lines: &[u8]) -> Result<Renewed<DiskFile<'a>>, ShorteningFault> {
        Err(self.0)
    }
}

/// A place where the shorter one goes to another disk.
#[derive(Drop)]
struct OtherDisk<'a> {
    alloc: Global,
    disk: &'a Disk,
}

impl<'a> Place<DiskFile<'a>> for OtherDisk<'a> {
    ghost use Rattle.std.specs.Prelude.{None};

    ghost journals = { λ _. None };

    fn renew(&mut self, lines: &[u8]) -> Result<Renewed<DiskFile<'a>>, ShorteningFault> {
        let mut file = DiskFile { disk: self.disk };
        let mut chain = Chain::new();
        match write_batch(self.alloc, &mut file, &mut chain, lines) {
            Ok(bytes) => Ok(Renewed { file, chain, bytes }),
            Err(_) => Err(ShorteningFault::Unwritten),
        }
    }
}

/// A disk with ample room.
fn ample_disk() -> Disk {
    Disk {
        room: 8192,
        syncs: Cell::new(100),
        cuts: Cell::new(100),
        bytes: Cell::new(0),
        durable: Cell::new(0),
    }
}

/// The only site of one begins its journal on this disk, and stores one byte. How it ended, and what it told.
fn store(alloc: Global, disk: &Disk) -> Result<(Result<(), SiteFault>, Vec<u8>), Fail> {
    store_at(alloc, disk, 0, &mut NoPlace(ShorteningFault::Unwritten))
}

/// The same, where the journal is made shorter at so many bytes, and lies in this place.
fn store_at<'a, N: Place<DiskFile<'a>>>(
    alloc: Global,
    disk: &'a Disk,
    shorten_at: u64,
    place: &mut N,
) -> Result<(Result<(), SiteFault>, Vec<u8>), Fail> {
    let header = Header {
        sites: 1,
        me: 0,
        pages: 1,
        cluster: None,
    };
    let node = Node::new(alloc, Sites::new(1)?, SiteId(0), 1)?;
    let start = Start {
        journal: 0,
        since: 0,
    };
    let desk = open_desk(alloc, header, Seal::Bare, true, node, start);
    let desk = desk.ok().ok_or("no desk")?;
    let journal = JournalFile::new(alloc, DiskFile { disk }, Chain::new(), 0, shorten_at);
    let mut reader = b"ask 0 a store 0 5 7\n".as_slice();
    let mut out = Vec::new(alloc);
    let mut errors = Vec::new(alloc);
    let ended = serve_kept(
        desk,
        header,
        &mut reader,
        &mut out,
        journal,
        place,
        &mut errors,
    );
    Ok((ended, out))
}

/// The first append fails, or the second; the first sync, or the second; then the cut, too, or the sync behind it, and it is told how many bytes
/// are durable.
#[test]
fn calls_that_fail(rt: HostRuntime) -> Result<(), Fail> {
    let failed = Err(SiteFault::Ended(ProcessFault::JournalFault));
    let cases: [(u64, u64, u64, Result<(), SiteFault>, u64); 9] = [
        (STORED, 2, 0, Ok(()), STORED),
        (BEGUN - 9, 2, 2, failed, 0),
        (BEGUN + 9, 2, 2, failed, BEGUN),
        (STORED - 1, 2, 2, failed, BEGUN),
        (STORED, 0, 2, failed, 0),
        (STORED, 1, 2, failed, BEGUN),
        (BEGUN + 9, 2, 0, Err(SiteFault::Loose(BEGUN)), BEGUN + 9),
        (BEGUN + 9, 2, 1, Err(SiteFault::Loose(BEGUN)), BEGUN),
        (STORED, 1, 0, Err(SiteFault::Loose(BEGUN)), STORED),
    ];
    for (room, syncs, cuts, wanted, bytes) in cases {
        let disk = Disk {
            room,
            syncs: Cell::new(syncs),
            cuts: Cell::new(cuts),
            bytes: Cell::new(0),
            durable: Cell::new(0),
        };
        let (ended, out) = store(rt.alloc(), &disk)?;
        let told = if wanted.is_ok() {
            b"tell 0 a stored\n".as_slice()
        } else {
            b""
        };
        assert_eq!(rt; ended, wanted, "{room} {syncs} {cuts}");
        assert_eq!(rt; out.as_slice(), told, "{room} {syncs} {cuts}");
        assert_eq!(rt; disk.bytes.get(), bytes, "{room} {syncs} {cuts}");
    }
    Ok(())
}

/// What was cut is durable, and so is all that is told.
#[test]
fn what_is_left_is_durable(rt: HostRuntime) -> Result<(), Fail> {
    for (room, durable) in [(BEGUN + 9, BEGUN), (STORED, STORED)] {
        let disk = Disk {
            room,
            syncs: Cell::new(2),
            cuts: Cell::new(2),
            bytes: Cell::new(0),
            durable: Cell::new(0),
        };
        let (ended, _out) = store(rt.alloc(), &disk)?;
        assert_eq!(rt; ended.is_ok(), room == STORED);
        assert_eq!(rt; disk.durable.get(), durable);
        assert_eq!(rt; disk.bytes.get(), durable);
    }
    Ok(())
}

/// The shorter journal has the state and the restart, all durable; the whole one stays as it was.
#[test]
fn a_shorter_journal_goes_on(rt: HostRuntime) -> Result<(), Fail> {
    let alloc = rt.alloc();
    let (whole, shorter) = (ample_disk(), ample_disk());
    let mut place = OtherDisk {
        alloc,
        disk: &shorter,
    };
    let (ended, out) = store_at(alloc, &whole, 1, &mut place)?;
    assert!(rt; ended.is_ok());
    assert_eq!(rt; out.as_slice(), b"tell 0 a stored\n".as_slice());
    assert_eq!(rt; whole.bytes.get(), STORED);
    assert!(rt; shorter.bytes.get() > BEGUN);
    assert_eq!(rt; shorter.durable.get(), shorter.bytes.get());
    Ok(())
}

/// Where the shorter one can't be written the site goes on with the whole one. Where its name may be lost by a crash the site ends.
#[test]
fn a_journal_that_stays_whole(rt: HostRuntime) -> Result<(), Fail> {
    let (going, ending) = (ample_disk(), ample_disk());
    let mut full = NoPlace(ShorteningFault::Unwritten);
    let (ended, _out) = store_at(rt.alloc(), &going, 1, &mut full)?;
    assert!(rt; ended.is_ok());
    assert_eq!(rt; going.bytes.get(), STORED);
    let mut unlisted = NoPlace(ShorteningFault::Unlisted);
    let (ended, _out) = store_at(rt.alloc(), &ending, 1, &mut unlisted)?;
    assert_eq!(rt; ended, Err(SiteFault::Unlisted));
    Ok(())
}
