//! The logs that a run leaves.
use shm_command::save_logs;
use shm_place::{SiteId, Sites};
use shm_prompt::{ReadRefusal, SaveFile};
use shm_report::ReportFault;
use shm_sites::{Input, SiteBox, SiteLog, Stamp};
use std::alloc::{AllocError, Allocator, Global};
use std::io::{self, ErrorKind};
use std::test::Fail;

/// What is saved last, under its name; a name that begins with `full` is refused.
#[derive(Drop)]
struct Shelf {
    alloc: Global,
    saved: Vec<u8>,
}

impl SaveFile for Shelf {
    ghost use Rattle.std.specs.Prelude.{None, ⊤};

    ghost saves = { λ _. None };

    ghost gives = { λ _ _ _. ⊤ };

    fn save(&mut self, name: &str, bytes: &[u8]) -> io::Result<()> {
        if name.starts_with("full") {
            return Err(io::Error::from(ErrorKind::Other));
        }
        self.saved = format!(in self.alloc; "{name}:\n")?.into_bytes();
        self.saved.extend_from_slice(bytes)?;
        Ok(())
    }

    fn read<A: Allocator + Copy>(&self, alloc: A, _name: &str) -> Result<Vec<u8, A>, ReadRefusal> {
        match self.saved.as_slice().to_vec(alloc) {
            Ok(bytes) => Ok(bytes),
            Err(_) => Err(ReadRefusal::OutOfMemory),
        }
    }
}

/// Site 1 of two asks for the page, and ticks.
fn log(alloc: Global) -> Result<SiteLog, Fail> {
    let mut held = SiteBox::new(alloc, Sites::new(2)?, SiteId(1), 1)?;
    let store = Input::Store {
        at: 0,
        offset: 5,
        byte: 7,
    };
    let told = held.take(store, Stamp::NONE);
    let ticked = held.take(Input::Tick, Stamp::NONE);
    told.ok().ok_or("not taken")?;
    ticked.ok().ok_or("not taken")?;
    Ok(held.into_log())
}

/// Each step has its line: the input as in a script, and what was sent as on a stream.
#[test]
fn a_log_is_saved(rt: HostRuntime) -> Result<(), Fail> {
    let mut shelf = Shelf {
        alloc: rt.alloc(),
        saved: Vec::new(rt.alloc()),
    };
    let logs = [log(rt.alloc())?];
    let saved = save_logs(rt.alloc(), "a b", logs.as_slice(), &mut shelf);
    assert_eq!(rt; saved, Ok(()));
    let text =
        "a b/site-1.log:\n1 store 1 0 5 7 > fault | env 1 0 1 0 0 ask 0 0 1 write\n2 tick 1 > took | env 1 0 2 1 0 ask 0 0 1 write\n";
    assert_eq!(rt; std::str::from_utf8(shelf.saved.as_slice()), Ok(text));
    let saved = save_logs(rt.alloc(), "full", logs.as_slice(), &mut shelf);
    assert_eq!(rt; saved, Err(ReportFault::WriteFault));
    Ok(())
}
