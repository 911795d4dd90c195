//! Journals that were written by hand, and what is found in them.
use super::unended;
use linked_list_allocator::LocalHeap;
use shm_journal::{Entry, Header, Recovered, RecoveryFault, parse_entry, parse_header, recover};
use shm_model::Answer;
use shm_place::{SiteId, Sites};
use shm_process::{Cause, Node, Said};
use shm_seal::ClusterName;
use shm_wire::parse_line;
use std::alloc::{AllocError, Allocator, Global};
use std::io::{self, ErrorKind, Read};
use std::test::Fail;

/// A journal of site 0 of 2, where segment 0 has 4 pages.
const STORES: &[u8] =
    b"journal 2 0 4\nstep 1 ask 0 a store 0 5 7\nstep 2 ask 0 b store 0 6 9\nstep 3 ask 0 a load 0 5\n";

/// Another one, whose entries have many steps: two stores, two loads, a map, and an unmap with a store.
const BLOCKS: &[u8] =
    b"journal 2 0 4\nstep 1 ask 0 a write 0 5 Bwk=\nstep 3 ask 0 b read 0 5 2\nstep 5 ask 0 m map 0 0 write\nstep 6 ask 0 m unmap 0 0 none 6 Aw==\n";

/// How many bytes its header and its first entry have.
const HEADER_AND_STORE: u64 = 14 + 27;

/// Gives one byte at a time, and then an error.
#[derive(Drop)]
struct Broken<'a> {
    rest: &'a [u8],
}

impl Read for Broken<'_> {
    fn read(&mut self, buf: &mut [u8]) -> io::Result<usize> {
        let Some((first, rest)) = self.rest.split_first() else {
            return Err(io::Error::from(ErrorKind::Other));
        };
        let Some(place) = buf.first_mut() else {
            return Ok(0);
        };
        *place = *first;
        self.rest = rest;
        Ok(1)
    }
}

/// The site that is recovered from there: site 0 of 2, where segment 0 has 4 pages.
fn recover_first_site<A: Allocator + Copy, R: Read>(
    alloc: A,
    reader: &mut R,
) -> Result<Recovered<A>, RecoveryFault> {
    match Sites::new(2) {
        Ok(sites) if 0 < sites.count() => recover(alloc, sites, SiteId(0), 4, None, reader),
        _ => Err(RecoveryFault::OutOfMemory),
    }
}

/// How many steps are found, the clock of the last, how many whole bytes, and whether the journal is new.
type Found = (u64, u64, u64, bool);

/// What was found of this site.
fn found_of<A: Allocator + Copy>(recovered: &Recovered<A>) -> Found {
    (
        recovered.node.steps(),
        recovered.node.clock(),
        recovered.whole,
        recovered.is_new,
    )
}

/// What is found where this reads.
fn found_by<A: Allocator + Copy, R: Read>(
    alloc: A,
    reader: &mut R,
) -> Result<Found, RecoveryFault> {
    match recover_first_site(alloc, reader) {
        Ok(recovered) => Ok(found_of(&recovered)),
        Err(fault) => Err(fault),
    }
}

/// What is found in the journal.
fn found<A: Allocator + Copy>(alloc: A, journal: &[u8]) -> Result<Found, RecoveryFault> {
    let mut reader = journal;
    found_by(alloc, &mut reader)
}

/// What is found in it with so many bytes of memory.
fn found_within(
    alloc: Global,
    bytes: usize,
    journal: &[u8],
) -> Result<Result<Found, RecoveryFault>, AllocError> {
    let heap = LocalHeap::new(alloc, bytes)?;
    Ok(found(&heap, journal))
}

/// The clock and the answer of a step.
fn answer_of(said: Option<Said>) -> Option<(u64, Answer)> {
    let said = said?;
    Some((said.clock, said.answer))
}

/// The clock and the answer of the step that the site makes of the line.
fn take_line(
    alloc: Global,
    node: &mut Node,
    line: &[u8],
) -> Result<Option<(u64, Answer)>, AllocError> {
    match parse_line(alloc, line)? {
        Some(read) => Ok(answer_of(node.take(read)?)),
        None => Ok(None),
    }
}

/// The clock and the answer of the step that the recovered site makes of the line.
fn answered(
    alloc: Global,
    journal: &[u8],
    line: &[u8],
) -> Result<Option<(u64, Answer)>, AllocError> {
    let mut reader = journal;
    match recover_first_site(alloc, &mut reader) {
        Ok(mut recovered) => take_line(alloc, &mut recovered.node, line),
        Err(_) => Ok(None),
    }
}

#[test]
fn headers_are_read_as_they_are_spelled(rt: HostRuntime) -> Result<(), Fail> {
    let header = Header {
        sites: 2,
        me: 0,
        pages: 4,
        cluster: None,
    };
    let line = format!(in rt.alloc(); "{header}")?;
    assert_eq!(rt; line.as_str(), "journal 2 0 4");
    assert_eq!(rt; parse_header(line.as_bytes()), Some(header));
    let named = Header {
        cluster: ClusterName::new(b"north".as_slice()),
        ..header
    };
    let line = format!(in rt.alloc(); "{named}")?;
    assert_eq!(rt; line.as_str(), "journal 2 0 4 @north");
    assert_eq!(rt; parse_header(line.as_bytes()), Some(named));
    assert_eq!(rt; parse_header(b"journal 2 0 4 ".as_slice()), None);
    Ok(())
}

/// The clock that the line records a restart at, if it does.
fn restart_clock(alloc: Global, line: &[u8]) -> Result<Option<u64>, AllocError> {
    let Some(Entry { clock, cause }) = parse_entry(alloc, line)? else {
        return Ok(None);
    };
    match cause {
        Cause::Restart => Ok(Some(clock)),
        Cause::Line(_) => Ok(None),
    }
}

/// Whether the line is an entry.
fn is_entry(alloc: Global, line: &[u8]) -> Result<bool, AllocError> {
    Ok(parse_entry(alloc, line)?.is_some())
}

const NO_ENTRIES: [&[u8]; 5] = [
    b"step 18446744073709551616 restart",
    b"step 1",
    b"step 1 restart ",
    b"step 1 a  b",
    b"step 1 tell 0 a stored",
];

#[test]
fn entries_are_read_as_they_are_spelled(rt: HostRuntime) -> Result<(), Fail> {
    let last = b"step 18446744073709551615 restart".as_slice();
    assert_eq!(rt; restart_clock(rt.alloc(), last)?, Some(u64::MAX));
    for line in NO_ENTRIES {
        assert!(rt; !is_entry(rt.alloc(), line)?, "at {line:?}");
    }
    Ok(())
}

#[test]
fn recorded_stores_are_loaded_again(rt: HostRuntime) -> Result<(), Fail> {
    assert_eq!(rt; found(rt.alloc(), STORES), Ok((3, 3, 92, false)));
    let loaded = answered(rt.alloc(), STORES, b"ask 0 c load 0 6")?;
    assert_eq!(rt; loaded, Some((4, Answer::Byte(9))));
    Ok(())
}

#[test]
fn an_entry_of_many_steps_makes_them_all(rt: HostRuntime) -> Result<(), Fail> {
    assert_eq!(rt; found(rt.alloc(), BLOCKS), Ok((7, 7, 136, false)));
    let loaded = answered(rt.alloc(), BLOCKS, b"ask 0 c load 0 6")?;
    assert_eq!(rt; loaded, Some((8, Answer::Byte(3))));
    Ok(())
}

/// Journals whose last line is torn, or that have none, and what is found in each. The last one has just its header.
const TORN: [(&[u8], Found); 4] = [
    (
        b"journal 2 0 4\nstep 1 ask 0 a store 0 5 7\nstep 2 ask 0 b store 0 6 9",
        (1, 1, HEADER_AND_STORE, false),
    ),
    (b"", (0, 0, 0, true)),
    (b"journal 2", (0, 0, 0, true)),
    (b"journal 2 0 4\n", (0, 0, 14, false)),
];

#[test]
fn a_torn_line_counts_for_nothing(rt: HostRuntime) {
    for (journal, whole) in TORN {
        assert_eq!(rt; found(rt.alloc(), journal), Ok(whole), "at {journal:?}");
    }
}

/// Journals that aren't this site's, and why. In the last one an entry of two steps reaches over the next.
const REFUSED: [(&[u8], RecoveryFault); 6] = [
    (b"journal 2 1 4\n", RecoveryFault::Foreign),
    (b"journal 2 0 4 \n", RecoveryFault::BadLine(1)),
    (b"journal 2 1", RecoveryFault::BadLine(1)),
    (
        b"journal 2 0 4\nstep 1 ask 0 a store 0 5 7\nstep 3 ask 0 b load 0 5\n",
        RecoveryFault::BadLine(3),
    ),
    (
        b"journal 2 0 4\nstep 1 ask 1 a store 0 5 7\n",
        RecoveryFault::BadLine(2),
    ),
    (
        b"journal 2 0 4\nstep 1 ask 0 a write 0 5 Bwk=\nstep 2 restart\n",
        RecoveryFault::BadLine(3),
    ),
];

#[test]
fn another_journal_is_refused(rt: HostRuntime) {
    for (journal, fault) in REFUSED {
        assert_eq!(rt; found(rt.alloc(), journal), Err(fault), "at {journal:?}");
    }
}

#[test]
fn a_line_of_8219_bytes_is_refused(rt: HostRuntime) -> Result<(), Fail> {
    let header = b"journal 2 0 4\n".as_slice();
    let longest = unended(rt.alloc(), header, 8218)?;
    assert_eq!(rt;
        found(rt.alloc(), longest.as_slice()),
        Ok((0, 0, 14, false)),
        "it may be torn"
    );
    let longer = unended(rt.alloc(), header, 8219)?;
    assert_eq!(rt;
        found(rt.alloc(), longer.as_slice()),
        Err(RecoveryFault::BadLine(2))
    );
    Ok(())
}

#[test]
fn a_reader_that_fails_is_a_read_fault(rt: HostRuntime) {
    let mut reader = Broken { rest: STORES };
    assert_eq!(rt;
        found_by(rt.alloc(), &mut reader),
        Err(RecoveryFault::ReadFault),
        "the fault was passed over"
    );
}

#[test]
fn each_allocation_is_refused_in_turn(rt: HostRuntime) -> Result<(), Fail> {
    for size in 1..4000usize {
        match found_within(rt.alloc(), size * 16, STORES)? {
            Err(fault) => assert_eq!(rt; fault, RecoveryFault::OutOfMemory),
            Ok(whole) => {
                assert!(rt; size > 512, "the site's own two pages were refused too");
                assert_eq!(rt; whole, (3, 3, 92, false));
                return Ok(());
            }
        }
    }
    Err(Fail::new("the site was never recovered"))
}
