//! The journals of two sites, and what is said of them.
use super::unended;
use linked_list_allocator::LocalHeap;
use shm_audit::{JournalFault, JournalsFault, Totals, audit_journals, read_log};
use shm_logs::{AuditFault, SiteLog};
use shm_place::SiteId;
use std::alloc::{AllocError, Allocator, Global};
use std::io::{self, Read};
use std::test::Fail;

/// Of a site that stores a byte and lends its page.
fn owner() -> &'static [u8] {
    b"journal 2 0 4\nstep 1 ask 0 a store 0 5 7\nstep 2 env 1 0 1 0 0 ask 0 0 1 read\nstep 3 env 0 0 2 1 0 hand 0 0 1 read 1\nstep 5 env 1 0 4 1 0 confirm 0 0 1\n"
}

/// Of the site that the page is lent to: zeros, but for a 7 as byte 5.
fn reader(alloc: Global) -> Result<String, AllocError> {
    let mut text = String::from_str(
        alloc,
        "journal 2 1 4\nstep 1 ask 1 b load 0 5\nstep 4 env 0 1 3 2 0 page 0 0 1 read AAAAAAAH",
    )?;
    for _ in 0..1363 {
        text.push_str("AAAA")?;
    }
    text.push_str("AA==\nstep 5 ask 1 b load 0 5\ntorn")?;
    Ok(text)
}

/// Why what is read there leads to no log.
fn fault_by<A: Allocator + Copy, R: Read>(alloc: A, reader: &mut R) -> Option<JournalFault> {
    match read_log(alloc, reader) {
        Ok(_) => None,
        Err(fault) => Some(fault),
    }
}

/// Why the journal leads to no log.
fn fault_of<A: Allocator + Copy>(alloc: A, journal: &[u8]) -> Option<JournalFault> {
    let mut reader = journal;
    fault_by(alloc, &mut reader)
}

/// Why it leads to none with so many bytes of memory.
fn fault_within(
    alloc: Global,
    bytes: usize,
    journal: &[u8],
) -> Result<Option<JournalFault>, AllocError> {
    let heap = LocalHeap::new(alloc, bytes)?;
    Ok(fault_of(&heap, journal))
}

/// Adds the log that the journal leads to.
fn push_log(alloc: Global, logs: &mut Vec<SiteLog>, journal: &[u8]) -> Result<(), Fail> {
    let mut reader = journal;
    let log = read_log(alloc, &mut reader)?;
    logs.push(log)?;
    Ok(())
}

/// What an audit says of the logs that these two journals lead to.
fn audit_both(
    alloc: Global,
    one: &[u8],
    other: &[u8],
) -> Result<Result<Totals, JournalsFault>, Fail> {
    let mut logs = Vec::new(alloc);
    push_log(alloc, &mut logs, one)?;
    push_log(alloc, &mut logs, other)?;
    Ok(audit_journals(alloc, logs.as_slice()))
}

/// What is counted in them, if an audit accepts them.
fn count_both(alloc: Global, one: &[u8], other: &[u8]) -> Result<Option<Totals>, Fail> {
    match audit_both(alloc, one, other)? {
        Ok(counts) => Ok(Some(counts)),
        Err(JournalsFault::OutOfMemory) => Ok(None),
        Err(JournalsFault::NotOneSet) => Ok(None),
        Err(JournalsFault::Audit(AuditFault::OutOfMemory)) => Ok(None),
        Err(JournalsFault::Audit(_)) => Ok(None),
    }
}

#[test]
fn a_copy_was_lent(rt: HostRuntime) -> Result<(), Fail> {
    let reader = reader(rt.alloc())?;
    let counts = Totals {
        steps: 7,
        accesses: 2,
        envelopes: 4,
    };
    assert_eq!(rt;
        count_both(rt.alloc(), owner(), reader.as_bytes())?,
        Some(counts)
    );
    Ok(())
}

#[test]
fn each_step_of_an_entry_counts(rt: HostRuntime) -> Result<(), Fail> {
    let blocks =
        b"journal 2 0 4\nstep 1 ask 0 a write 0 5 Bwk=\nstep 3 ask 0 b read 0 5 2\n".as_slice();
    let idle = b"journal 2 1 4\nstep 1 ask 1 t tick\n".as_slice();
    let counts = Totals {
        steps: 5,
        accesses: 4,
        envelopes: 0,
    };
    assert_eq!(rt; count_both(rt.alloc(), blocks, idle)?, Some(counts));
    Ok(())
}

#[test]
fn a_page_was_never_sent(rt: HostRuntime) -> Result<(), Fail> {
    let reader = reader(rt.alloc())?;
    let owner = b"journal 2 0 4\nstep 1 ask 0 a store 0 5 7\n".as_slice();
    let unsent = AuditFault::Unsent {
        site: SiteId(1),
        index: 1,
    };
    assert_eq!(rt;
        audit_both(rt.alloc(), owner, reader.as_bytes())?,
        Err(JournalsFault::Audit(unsent))
    );
    Ok(())
}

#[test]
fn other_openings_are_not_one_set(rt: HostRuntime) -> Result<(), Fail> {
    let one = b"journal 2 0 4\n".as_slice();
    let other = b"journal 2 1 8\n".as_slice();
    assert_eq!(rt;
        audit_both(rt.alloc(), one, other)?,
        Err(JournalsFault::NotOneSet)
    );
    Ok(())
}

/// Journals, and the number of the first bad line in each.
const BAD: [(&[u8], u64); 4] = [
    (b"", 1),
    (b"journal 2 2 4\n", 1),
    (b"journal 2 0 4\nrestart\n", 2),
    (b"journal 2 0 4\nstep 1 restart\nstep 1 ask 0 a tick\n", 3),
];

#[test]
fn bad_lines_have_their_numbers(rt: HostRuntime) {
    for (journal, number) in BAD {
        assert_eq!(rt;
            fault_of(rt.alloc(), journal),
            Some(JournalFault::BadLine(number)),
            "at {journal:?}"
        );
    }
}

#[test]
fn a_line_of_8219_bytes_is_bad(rt: HostRuntime) -> Result<(), Fail> {
    let header = b"journal 2 0 4\n".as_slice();
    let longest = unended(rt.alloc(), header, 8218)?;
    assert_eq!(rt;
        fault_of(rt.alloc(), longest.as_slice()),
        None,
        "it may be torn"
    );
    let longer = unended(rt.alloc(), header, 8219)?;
    assert_eq!(rt;
        fault_of(rt.alloc(), longer.as_slice()),
        Some(JournalFault::BadLine(2))
    );
    Ok(())
}

#[test]
fn nine_thousand_bytes_without_a_line_feed_are_no_journal(rt: HostRuntime) -> Result<(), Fail> {
    let bytes = unended(rt.alloc(), b"", 9000)?;
    assert_eq!(rt;
        fault_of(rt.alloc(), bytes.as_slice()),
        Some(JournalFault::BadLine(1))
    );
    Ok(())
}

/// Memory for one line is enough, and the audit ends.
#[test]
fn zeros_without_end_are_no_journal(rt: HostRuntime) -> Result<(), Fail> {
    let heap = LocalHeap::new(rt.alloc(), 65536)?;
    assert_eq!(rt;
        fault_by(&heap, &mut io::repeat(0)),
        Some(JournalFault::BadLine(1))
    );
    Ok(())
}

#[test]
fn each_growth_is_refused_in_turn(rt: HostRuntime) -> Result<(), Fail> {
    let reader = reader(rt.alloc())?;
    for step in 1..4000usize {
        match fault_within(rt.alloc(), step * 64, reader.as_bytes())? {
            None => return Ok(()),
            Some(fault) => assert_eq!(rt; fault, JournalFault::OutOfMemory),
        }
    }
    Err(Fail::new("no log was made"))
}
