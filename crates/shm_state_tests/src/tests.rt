use shm_place::{SegId, SiteId, Sites};
use shm_site::Site;
use shm_state::{Part, TakeFault, TellFault, Told, parse_part, tell_parts};
use std::alloc::{AllocError, Global};
use std::fmt::Debug;
use std::process::Abort;
use std::test::Fail;

/// Stops the test where what was found is something else. A call of this is proved in a third of the time of an `assert_eq!`.
fn expect_eq<T: PartialEq + Debug + Drop>(rt: &impl Abort, found: T, wanted: T) {
    assert_eq!(*rt; found, wanted);
}

/// Parts of site 0 of one, in their order.
const PARTS: [&str; 10] = [
    "state requests 7",
    "state calls 3",
    "state outstanding 3 detach id 0",
    "state segment 0 5 4096 600 1 1 1 1 0 marked",
    "state missing 0 1000000000000000",
    "state kept 0 2 refused einval",
    "state purged 3",
    "state entry 0 1 gone 4",
    "state attachment 2 0 4096 rw",
    "state book 0 1 0 0000000000000000 4 write 0 7 0 0 0 0 0 0 0 0 0 0 0 0 0 0 0",
];

/// None of these: a word too few and one too many, a set of 15 sites, a page of three bytes, and a line of the stream.
const NO_PARTS: [&str; 5] = [
    "state requests",
    "state calls 3 4",
    "state missing 0 100000000000000",
    "state entry 0 1 copy 4 AQID",
    "ask 0 a tick",
];

/// What the line is printed as, if it is a part's.
fn printed(alloc: Global, line: &str) -> Result<Option<String>, AllocError> {
    match parse_part(alloc, line.as_bytes())? {
        Some(part) => Ok(Some(format!(in alloc; "{part}")?)),
        None => Ok(None),
    }
}

#[test]
fn parts_are_printed_as_they_were_read(rt: HostRuntime) -> Result<(), Fail> {
    for line in PARTS {
        let printed = printed(rt.alloc(), line)?;
        expect_eq(&rt, printed.as_deref(), Some(line));
    }
    Ok(())
}

#[test]
fn other_lines_are_no_parts(rt: HostRuntime) -> Result<(), Fail> {
    for line in NO_PARTS {
        assert!(rt;
            parse_part(rt.alloc(), line.as_bytes())?.is_none(),
            "at {line}"
        );
    }
    Ok(())
}

/// Site 0 of one, of which nothing was told.
fn nothing(alloc: Global) -> Result<Told, AllocError> {
    match Sites::new(1) {
        Ok(sites) => Ok(Told::new(alloc, sites, SiteId(0))),
        Err(_) => Err(AllocError),
    }
}

/// Tells the part of the line.
fn tell(alloc: Global, told: &mut Told, line: &str) -> Result<Result<(), TakeFault>, AllocError> {
    match parse_part(alloc, line.as_bytes())? {
        Some(part) => Ok(told.take(part)),
        None => Err(AllocError),
    }
}

/// The site that is made of what was told.
fn made_of(told: Told) -> Result<Site, AllocError> {
    match told.into_site() {
        Ok(site) => Ok(site),
        Err(_) => Err(AllocError),
    }
}

/// The site of which all parts were told.
fn site_of_all(alloc: Global) -> Result<Site, AllocError> {
    let mut told = nothing(alloc)?;
    for line in PARTS {
        if tell(alloc, &mut told, line)?.is_err() {
            return Err(AllocError);
        }
    }
    made_of(told)
}

#[test]
fn a_site_is_made_of_what_was_told(rt: HostRuntime) -> Result<(), Fail> {
    let site = site_of_all(rt.alloc())?;
    let counted = (site.requests().last(), site.calls().begun());
    let listed = (site.books().count(), site.home().segments().len());
    let purged = site.holdings().purged().at_place(0);
    let attached = site.holdings().attachments().get(2);
    drop(site);
    expect_eq(&rt, counted, (7, 3));
    expect_eq(&rt, listed, (1, 1));
    expect_eq(&rt, purged, Some(SegId(3)));
    expect_eq(&rt, attached, Some((SegId(0), (4096, false))));
    Ok(())
}

/// The lines of these parts.
fn printed_all(alloc: Global, parts: &[Part]) -> Result<Vec<String>, AllocError> {
    let mut lines = Vec::new(alloc);
    for part in parts {
        lines.push(format!(in alloc; "{part}")?)?;
    }
    Ok(lines)
}

/// The lines of all parts of the site's state. Whoever holds parts drops them by name, once: a drop at each way out takes minutes to prove.
fn lines_of(alloc: Global, site: &Site) -> Result<Vec<String>, AllocError> {
    let Ok(parts) = tell_parts(alloc, site) else {
        return Err(AllocError);
    };
    let lines = printed_all(alloc, parts.as_slice());
    drop(parts);
    lines
}

/// Takes each part that the site tells.
fn take_parts_of(alloc: Global, told: &mut Told, site: &Site) -> Result<(), AllocError> {
    let Ok(parts) = tell_parts(alloc, site) else {
        return Err(AllocError);
    };
    for part in parts {
        if told.take(part).is_err() {
            return Err(AllocError);
        }
    }
    Ok(())
}

/// The site that is made of the parts of this one, without their lines.
fn made_again(alloc: Global, site: &Site) -> Result<Site, AllocError> {
    let mut told = nothing(alloc)?;
    let taken = take_parts_of(alloc, &mut told, site);
    let made = made_of(told);
    match taken {
        Ok(()) => made,
        Err(refused) => Err(refused),
    }
}

/// The lines of the parts of the site that is made again.
fn lines_made_again(alloc: Global, site: &Site) -> Result<Vec<String>, AllocError> {
    let again = made_again(alloc, site)?;
    let lines = lines_of(alloc, &again);
    drop(again);
    lines
}

/// The lines of the site's parts, and those of the site that is made again.
fn lines_twice(alloc: Global, site: &Site) -> Result<(Vec<String>, Vec<String>), AllocError> {
    let first = lines_of(alloc, site)?;
    let second = lines_made_again(alloc, site)?;
    Ok((first, second))
}

/// Checks that each of the parts is among the lines.
fn are_all_told(lines: &[String]) -> bool {
    for part in PARTS {
        if !lines.iter().any(|line| line.as_str() == part) {
            return false;
        }
    }
    true
}

// The attached segment's first page is stored too, untouched: one part more.
#[test]
fn a_site_tells_the_parts_of_which_it_was_made(rt: HostRuntime) -> Result<(), Fail> {
    let site = site_of_all(rt.alloc())?;
    let lines = lines_twice(rt.alloc(), &site);
    drop(site);
    let (first, second) = lines?;
    assert!(rt; are_all_told(first.as_slice()));
    expect_eq(&rt, first, second);
    Ok(())
}

#[test]
fn a_site_whose_copies_are_limited_tells_nothing(rt: HostRuntime) -> Result<(), Fail> {
    let Ok(sites) = Sites::new(1) else {
        return Err(AllocError.into());
    };
    let site: Site = Site::framed(rt.alloc(), sites, SiteId(0), 2, 1)?;
    let told = tell_parts(rt.alloc(), &site);
    expect_eq(&rt, told.err(), Some(TellFault::Limited));
    Ok(())
}

/// What the last part is answered behind the others.
fn tell_behind(
    alloc: Global,
    told: &mut Told,
    lines: &[&str],
    last: &str,
) -> Result<Result<(), TakeFault>, AllocError> {
    for line in lines {
        let _ = tell(alloc, told, line)?;
    }
    tell(alloc, told, last)
}

/// What a part is answered behind others.
fn behind(alloc: Global, lines: &[&str], last: &str) -> Result<Result<(), TakeFault>, AllocError> {
    let mut told = nothing(alloc)?;
    let answer = tell_behind(alloc, &mut told, lines, last);
    drop(told);
    answer
}

#[test]
fn parts_that_are_not_taken(rt: HostRuntime) -> Result<(), Fail> {
    let counters = ["state requests 7", "state calls 3", "state purged 3"];
    let early = behind(rt.alloc(), &[], "state calls 3")?;
    let again = behind(rt.alloc(), &counters, "state purged 3")?;
    let gone = behind(rt.alloc(), &counters, "state entry 3 0 gone 4")?;
    expect_eq(&rt, early, Err(TakeFault::OutOfOrder));
    expect_eq(&rt, again, Err(TakeFault::Twice));
    expect_eq(&rt, gone, Err(TakeFault::Unfit));
    Ok(())
}

#[test]
fn a_state_without_its_calls_makes_no_site(rt: HostRuntime) -> Result<(), Fail> {
    let mut told = nothing(rt.alloc())?;
    let _ = tell(rt.alloc(), &mut told, "state requests 7")?;
    assert!(rt; told.into_site().is_err());
    Ok(())
}
