//! Pages that a site's machine maps: what is kept back meanwhile, and what is given up.
use crate::tests::sites::exchanges::{
    Exchange, Records, counts, first_astray, new_desks, page_line,
};
use std::test::Fail;

/// Site 0 maps page 0 to write, which has a 5. A Hand is kept back until the mapping is turned into one to read, and brings 7 and 8.
#[test]
fn a_hand_is_kept_back_until_the_page_is_given_up(rt: HostRuntime) -> Result<(), Fail> {
    let alloc = rt.alloc();
    let mut desks = new_desks(alloc, 2)?;
    let mapped = page_line(
        alloc,
        "tell 0 a stored\ntell 0 m mapped BQAA",
        1364,
        "AA==\n",
    )?;
    let handed = page_line(alloc, "env 0 1 7 6 0 page 0 0 1 read BwgA", 1364, "AA==\n")?;
    let given_up = format!(in alloc; "tell 0 m unmapped\n{}", handed.as_str())?;
    let exchanges = a_held_hand(mapped.as_str(), given_up.as_str(), handed.as_str());
    assert_eq!(rt; first_astray(desks.as_mut_slice(), &exchanges)?, None);
    assert_eq!(rt; counts(desks.as_slice(), 0), Some((7, 7, 0, 0)));
    Ok(())
}

fn a_held_hand<'a>(mapped: &'a str, given_up: &'a str, handed: &'a str) -> [Exchange<'a>; 6] {
    [
        Exchange {
            site: 0,
            lines: "ask 0 a store 0 0 5\nask 0 m map 0 0 write\n",
            output: mapped,
            records: Records::All(b"step 1 ask 0 a store 0 0 5\nstep 2 ask 0 m map 0 0 write\n"),
        },
        Exchange {
            site: 1,
            lines: "ask 1 b load 0 0\n",
            output: "env 1 0 1 0 0 ask 0 0 1 read\n",
            records: Records::All(b"step 1 ask 1 b load 0 0\n"),
        },
        Exchange {
            site: 0,
            lines: "env 1 0 1 0 0 ask 0 0 1 read\n",
            output: "env 0 0 3 2 0 hand 0 0 1 read 1\n",
            records: Records::All(b"step 3 env 1 0 1 0 0 ask 0 0 1 read\n"),
        },
        Exchange {
            site: 0,
            lines: "env 0 0 3 2 0 hand 0 0 1 read 1\n",
            output: "tell 0 * revoke 0 0 read\n",
            records: Records::All(b""),
        },
        Exchange {
            site: 0,
            lines: "ask 0 m unmap 0 0 read 0 Bwg=\n",
            output: given_up,
            records: Records::All(
                b"step 4 ask 0 m unmap 0 0 read 0 Bwg=\nstep 7 env 0 0 3 2 0 hand 0 0 1 read 1\n",
            ),
        },
        Exchange {
            site: 1,
            lines: handed,
            output: "env 1 0 8 1 0 confirm 0 0 1\ntell 1 b byte 7\n",
            records: Records::Ending(b"step 9 ask 1 b load 0 0\n"),
        },
    ]
}

/// A store waits while its page is mapped to read, a try is answered, an attachment that is mapped through isn't detached, and nothing is
/// given up twice.
#[test]
fn the_sites_own_accesses_wait_for_what_is_mapped(rt: HostRuntime) -> Result<(), Fail> {
    let alloc = rt.alloc();
    let mut desks = new_desks(alloc, 1)?;
    let mapped = page_line(alloc, "tell 0 m mapped AAAA", 1364, "AA==\n")?;
    let exchanges = own_accesses(mapped.as_str());
    assert_eq!(rt; first_astray(desks.as_mut_slice(), &exchanges)?, None);
    assert_eq!(rt; counts(desks.as_slice(), 0), Some((5, 5, 5, 0)));
    Ok(())
}

fn own_accesses<'a>(mapped: &'a str) -> [Exchange<'a>; 5] {
    [
        Exchange {
            site: 0,
            lines: "ask 0 m map 0 0 read\n",
            output: mapped,
            records: Records::All(b"step 1 ask 0 m map 0 0 read\n"),
        },
        Exchange {
            site: 0,
            lines: "ask 0 l load 0 0\nask 0 s store 0 0 3\nask 0 t try-store 0 1 4\nask 0 d detach 0\n",
            output: "tell 0 l byte 0\ntell 0 * revoke 0 0 none\ntell 0 t waiting\ntell 0 d refused 8\n",
            records: Records::All(b"step 2 ask 0 l load 0 0\n"),
        },
        Exchange {
            site: 0,
            lines: "ask 0 m map 0 0 write\nask 0 m mappings\n",
            output: "tell 0 m mapped\ntell 0 m mappings 0 0 write\n",
            records: Records::All(b"step 3 ask 0 m map 0 0 write\n"),
        },
        Exchange {
            site: 0,
            lines: "ask 0 m unmap 0 1 none\n",
            output: "tell 0 m refused 16\n",
            records: Records::All(b""),
        },
        Exchange {
            site: 0,
            lines: "ask 0 m unmap 0 0 none\nask 0 m unmap 0 0 none\n",
            output: "tell 0 m unmapped\ntell 0 s stored\ntell 0 m refused 16\n",
            records: Records::All(b"step 4 ask 0 m unmap 0 0 none\nstep 5 ask 0 s store 0 0 3\n"),
        },
    ]
}

/// A map asks for its right once, and is answered when the page has come; of a segment that isn't there it is refused.
#[test]
fn a_map_waits_for_its_right(rt: HostRuntime) -> Result<(), Fail> {
    let alloc = rt.alloc();
    let mut desks = new_desks(alloc, 2)?;
    let page = page_line(alloc, "env 0 1 3 1 0 page 0 0 1 read AAAA", 1364, "AA==\n")?;
    let mapped = page_line(
        alloc,
        "env 1 0 4 2 0 confirm 0 0 1\ntell 1 m mapped AAAA",
        1364,
        "AA==\n",
    )?;
    let exchanges = a_waiting_map(page.as_str(), mapped.as_str());
    assert_eq!(rt; first_astray(desks.as_mut_slice(), &exchanges)?, None);
    assert_eq!(rt; counts(desks.as_slice(), 1), Some((5, 5, 1, 0)));
    Ok(())
}

fn a_waiting_map<'a>(page: &'a str, mapped: &'a str) -> [Exchange<'a>; 6] {
    [
        Exchange {
            site: 1,
            lines: "ask 1 m map 0 0 read\n",
            output: "env 1 0 1 0 0 ask 0 0 1 read\n",
            records: Records::All(b"step 1 ask 1 m try-load 0 0\n"),
        },
        Exchange {
            site: 1,
            lines: "ask 1 a show 0 0\nask 1 n map 7 0 write\n",
            output: "tell 1 a page Nil/0\ntell 1 n refused 9\n",
            records: Records::All(b"step 2 ask 1 n try-store 7 0 0\n"),
        },
        Exchange {
            site: 0,
            lines: "env 1 0 1 0 0 ask 0 0 1 read\n",
            output: "env 0 0 2 0 0 hand 0 0 1 read 1\n",
            records: Records::All(b"step 2 env 1 0 1 0 0 ask 0 0 1 read\n"),
        },
        Exchange {
            site: 0,
            lines: "env 0 0 2 0 0 hand 0 0 1 read 1\n",
            output: page,
            records: Records::All(b"step 3 env 0 0 2 0 0 hand 0 0 1 read 1\n"),
        },
        Exchange {
            site: 1,
            lines: page,
            output: mapped,
            records: Records::Ending(b"step 5 ask 1 m map 0 0 read\n"),
        },
        Exchange {
            site: 1,
            lines: "ask 1 m unmap 0 0 none\n",
            output: "tell 1 m unmapped\n",
            records: Records::All(b"step 6 ask 1 m unmap 0 0 none\n"),
        },
    ]
}
