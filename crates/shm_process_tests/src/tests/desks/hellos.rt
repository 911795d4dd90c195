//! What a site says of how it was begun, and what it makes of what others say.
use crate::tests::desks::{greeting_desk, silent_desk};
use shm_process::Desk;
use shm_seal::{ClusterName, Key, Seal};
use std::alloc::{AllocError, Global};
use std::test::Fail;

/// What the site has noted of another, as text.
fn noted(alloc: Global, desk: &Desk) -> Result<String, AllocError> {
    match desk.disagreement() {
        Some(disagreement) => format!(in alloc; "{disagreement}"),
        None => Ok(String::new(alloc)),
    }
}

/// A line, what the site tells on it, and what it has noted then.
#[derive(Drop)]
struct Heard<'a> {
    line: &'a str,
    told: &'a str,
    noted: &'a str,
}

/// Whether the site does so on the line, and passes it over.
fn hears(alloc: Global, desks: &mut [Desk], heard: &Heard<'_>) -> Result<bool, AllocError> {
    let Some(desk) = desks.first_mut() else {
        return Ok(false);
    };
    let passed = desk.node().lines_passed();
    desk.clear();
    desk.take(heard.line.as_bytes())?;
    let is_noted = noted(alloc, desk)?.as_str() == heard.noted;
    let is_passed = passed < desk.node().lines_passed();
    Ok(is_noted && is_passed && desk.output() == heard.told && desk.entries().is_empty())
}

/// Whether the site tells and notes nothing on the line, and passes it over.
fn ignores(alloc: Global, desks: &mut [Desk], line: &str) -> Result<bool, AllocError> {
    let heard = Heard {
        line,
        told: "",
        noted: "",
    };
    hears(alloc, desks, &heard)
}

/// Whether the site has told this.
fn has_told(desks: &[Desk], told: &str) -> bool {
    match desks.first() {
        Some(desk) => desk.output() == told,
        None => false,
    }
}

/// How many lines it passed over as they had no digest.
fn without_digest(desks: &[Desk]) -> Option<u64> {
    Some(desks.first()?.counts().unopened.no_digest)
}

/// The name of a cluster.
fn north() -> Result<ClusterName, Fail> {
    match ClusterName::new(b"north".as_slice()) {
        Some(name) => Ok(name),
        None => Err(Fail::new("a cluster's name")),
    }
}

#[test]
fn a_site_says_to_each_other_how_it_was_begun(rt: HostRuntime) -> Result<(), Fail> {
    let desks = greeting_desk(rt.alloc(), Seal::Bare, 3, 1)?;
    assert!(rt;
        has_told(
            desks.as_slice(),
            "env 1 0 0 0 0 hello 3 4\nenv 1 2 0 0 0 hello 3 4\n"
        )
    );
    Ok(())
}

#[test]
fn a_site_of_a_named_cluster_says_so_under_its_name(rt: HostRuntime) -> Result<(), Fail> {
    let desks = greeting_desk(rt.alloc(), Seal::Named(north()?), 3, 1)?;
    assert!(rt;
        has_told(
            desks.as_slice(),
            "env 1 0 0 0 0 hello 3 4 @north\nenv 1 2 0 0 0 hello 3 4 @north\n"
        )
    );
    Ok(())
}

/// It agrees, is for another site, is cut short, has a word too many, or is the site's own.
const NOT_NOTED: [&str; 6] = [
    "env 0 1 0 0 0 hello 3 4\n",
    "env 0 2 0 0 0 hello 9 9\n",
    "env 0 1 0 0 0 hello 9\n",
    "env 0 1 0 0 0 hello 9 9 9\n",
    "env 0 1 0 1 0 hello 9 9\n",
    "env 1 1 0 0 0 hello 3 4\n",
];

#[test]
fn what_says_no_other_opening_is_not_noted(rt: HostRuntime) -> Result<(), Fail> {
    let alloc = rt.alloc();
    let mut desks = greeting_desk(alloc, Seal::Bare, 3, 1)?;
    for line in &NOT_NOTED {
        assert!(rt; ignores(alloc, desks.as_mut_slice(), line)?, "at {line}");
    }
    Ok(())
}

/// Other sites, other pages, and a site that the cluster doesn't have.
const NOTED: [Heard<'static>; 3] = [
    Heard {
        line: "env 2 1 0 0 0 hello 4 4\n",
        told: "env 1 2 0 0 0 hello 3 4\n",
        noted: "site 2 was begun with --sites 4 --preset 4, this one with --sites 3 --preset 4",
    },
    Heard {
        line: "env 0 1 0 0 0 hello 3 8\n",
        told: "env 1 0 0 0 0 hello 3 4\n",
        noted: "site 0 was begun with --sites 3 --preset 8, this one with --sites 3 --preset 4",
    },
    Heard {
        line: "env 3 1 0 0 0 hello 3 4\n",
        told: "env 1 3 0 0 0 hello 3 4\n",
        noted: "site 3 was begun with --sites 3 --preset 4, this one with --sites 3 --preset 4",
    },
];

/// Whether a site does so on the line, and then notes and answers no other.
fn hears_first(alloc: Global, heard: &Heard<'_>) -> Result<bool, AllocError> {
    let mut desks = greeting_desk(alloc, Seal::Bare, 3, 1)?;
    let later = Heard {
        line: "env 2 1 0 0 0 hello 7 7\n",
        told: "",
        noted: heard.noted,
    };
    let is_first = hears(alloc, desks.as_mut_slice(), heard)?;
    let is_last = hears(alloc, desks.as_mut_slice(), &later)?;
    Ok(is_first && is_last)
}

/// Only the first is noted, and answered.
#[test]
fn another_opening_is_noted_once_and_answered(rt: HostRuntime) -> Result<(), Fail> {
    for heard in &NOTED {
        assert!(rt; hears_first(rt.alloc(), heard)?, "at {}", heard.line);
    }
    Ok(())
}

/// A desk that says no hello notes none.
#[test]
fn a_desk_without_an_opening_notes_nothing(rt: HostRuntime) -> Result<(), Fail> {
    let alloc = rt.alloc();
    let mut desks = silent_desk(alloc, 3, 1)?;
    for heard in &NOTED {
        assert!(rt;
            ignores(alloc, desks.as_mut_slice(), heard.line)?,
            "at {}",
            heard.line
        );
    }
    Ok(())
}

#[test]
fn a_hello_without_its_digest_is_not_noted(rt: HostRuntime) -> Result<(), Fail> {
    let alloc = rt.alloc();
    let seal = Seal::Keyed(north()?, Key::new(b"secret".as_slice()));
    let mut desks = greeting_desk(alloc, seal, 3, 1)?;
    let line = "env 2 1 0 0 0 hello 4 4 @north\n";
    assert!(rt; ignores(alloc, desks.as_mut_slice(), line)?);
    assert_eq!(rt; without_digest(desks.as_slice()), Some(1));
    Ok(())
}
