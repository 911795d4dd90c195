//! A journal of other lines takes a journal's name: it is written beside it and made durable, and only then takes the name.
use crate::journal_place::Renewed;
use crate::journal_startup::{Kept, Lock, list_new, open_journal};
use crate::shortening_error::ShorteningFault;
use shm_batches::{BatchFault, Chain, write_batch};
use std::alloc::{AllocError, Global};
use std::fs::{self, OpenFile, OpenOptions};
use std::io::ErrorKind;
use std::os::unix::fs::MetadataExt;
use std::rt::Files;

/// Has a journal of these lines take the name of this one, and answers its file. The whole one is kept under a name with a number, or goes.
pub(crate) fn renew<R: AllocGlobal + Files>(
    rt: &R,
    name: &str,
    forgets: bool,
    lines: &[u8],
) -> Result<Renewed<R::File>, ShorteningFault>
where
    R::File: Lock,
{
    if forgets {
        return renew_alone(rt, name, lines);
    }
    match renew_kept(rt, name, lines) {
        Ok((kept, renewed)) => {
            drop(kept);
            Ok(renewed)
        }
        Err(fault) => Err(fault),
    }
}

/// The whole one is kept. Answers its further name too.
pub(crate) fn renew_kept<R: AllocGlobal + Files>(
    rt: &R,
    name: &str,
    lines: &[u8],
) -> Result<(String, Renewed<R::File>), ShorteningFault>
where
    R::File: Lock,
{
    let Ok(new) = new_name(rt.alloc(), name) else {
        return Err(ShorteningFault::OutOfMemory);
    };
    let renewed = match write_new(rt, new.as_str(), lines) {
        Ok(renewed) => renewed,
        Err(fault) => return Err(without(rt, new.as_str(), fault)),
    };
    let kept = match keep_whole(rt, name) {
        Ok(kept) => kept,
        Err(fault) => return Err(without(rt, new.as_str(), fault)),
    };
    match take_name(rt, new.as_str(), name) {
        Ok(()) => Ok((kept, renewed)),
        Err(fault) => Err(fault),
    }
}

/// The whole one goes.
fn renew_alone<R: AllocGlobal + Files>(
    rt: &R,
    name: &str,
    lines: &[u8],
) -> Result<Renewed<R::File>, ShorteningFault>
where
    R::File: Lock,
{
    let Ok(new) = new_name(rt.alloc(), name) else {
        return Err(ShorteningFault::OutOfMemory);
    };
    let renewed = match write_new(rt, new.as_str(), lines) {
        Ok(renewed) => renewed,
        Err(fault) => return Err(without(rt, new.as_str(), fault)),
    };
    match take_name(rt, new.as_str(), name) {
        Ok(()) => Ok(renewed),
        Err(fault) => Err(fault),
    }
}

/// The name of the new journal until it takes this one.
fn new_name(alloc: Global, name: &str) -> Result<String, AllocError> {
    format!(in alloc; "{name}.new")
}

/// Gives the new journal's file this name, and makes that durable.
fn take_name<R: AllocGlobal + Files>(rt: &R, new: &str, name: &str) -> Result<(), ShorteningFault> {
    if fs::rename(rt, new, name).is_err() {
        return Err(without(rt, new, ShorteningFault::Unnamed));
    }
    match list_new(rt, name, true) {
        Ok(()) => Ok(()),
        Err(_) => Err(ShorteningFault::Unlisted),
    }
}

/// Writes a file of this name with one batch of these lines, and makes it durable. Then it is opened as a journal that this process alone has.
fn write_new<R: AllocGlobal + Files>(
    rt: &R,
    name: &str,
    lines: &[u8],
) -> Result<Renewed<R::File>, ShorteningFault>
where
    R::File: Lock,
{
    let (chain, bytes) = match write_durable(rt, name, lines) {
        Ok(written) => written,
        Err(fault) => return Err(fault),
    };
    match open_journal(rt, Kept::plain(name)) {
        Ok(file) => Ok(Renewed { file, chain, bytes }),
        Err(_) => Err(ShorteningFault::Unwritten),
    }
}

/// Writes a file of this name with one batch of these lines, and makes it durable. Answers its chain, and how many bytes it has.
fn write_durable<R: AllocGlobal + Files>(
    rt: &R,
    name: &str,
    lines: &[u8],
) -> Result<(Chain, u64), ShorteningFault> {
    let opened = OpenOptions::new()
        .write(true)
        .create(true)
        .truncate(true)
        .open(rt, name);
    let Ok(file) = opened else {
        return Err(ShorteningFault::Unwritten);
    };
    let mut file = file;
    let mut chain = Chain::new();
    let bytes = match write_batch(rt.alloc(), &mut file, &mut chain, lines) {
        Ok(bytes) => bytes,
        Err(BatchFault::OutOfMemory) => return Err(ShorteningFault::OutOfMemory),
        Err(_) => return Err(ShorteningFault::Unwritten),
    };
    match file.sync_all() {
        Ok(()) => Ok((chain, bytes)),
        Err(_) => Err(ShorteningFault::Unwritten),
    }
}

/// Gives the file of this name a second name: the first that is free, with a number behind it, unless it has one from an attempt that didn't end.
fn keep_whole<R: AllocGlobal + Files>(rt: &R, name: &str) -> Result<String, ShorteningFault> {
    'numbers: for number in 1..u32::MAX {
        let Ok(kept) = format!(in rt.alloc(); "{name}.{number}") else {
            return Err(ShorteningFault::OutOfMemory);
        };
        match fs::hard_link(rt, name, kept.as_str()) {
            Ok(()) => return Ok(kept),
            Err(error) if error.kind() == ErrorKind::AlreadyExists => {}
            Err(_) => return Err(ShorteningFault::Unkept),
        }
        if are_one_file(rt, name, kept.as_str()) {
            return Ok(kept);
        }
    }
    Err(ShorteningFault::Unkept)
}

/// Checks that both names are those of one file.
fn are_one_file<R: Files>(rt: &R, name: &str, other: &str) -> bool {
    match (fs::metadata(rt, name), fs::metadata(rt, other)) {
        (Ok(one), Ok(other)) => one.dev() == other.dev() && one.ino() == other.ino(),
        _ => false,
    }
}

/// This fault, once the file of this name, which nothing needs, is removed. Where it can't be, the next attempt writes over it.
fn without<R: Files>(rt: &R, name: &str, fault: ShorteningFault) -> ShorteningFault {
    let _ = fs::remove_file(rt, name);
    fault
}
