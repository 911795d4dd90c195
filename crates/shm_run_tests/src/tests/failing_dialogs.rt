//! Dialogs of the prompt with streams and memory that fail.
use super::failing_streams::{Giver, Taker};
use super::prompt_dialogs::{Dialog, empty_shelf, told_on};
use linked_list_allocator::LocalHeap;
use shm_prompt::{PromptFault, prompt};
use std::alloc::{AllocError, Global};
use std::io::ErrorKind;
use std::process::Abort;
use std::test::Fail;

/// The dialog on one line, with a writer whose call after so many fails.
fn told_to_failing(alloc: Global, calls: usize) -> Dialog {
    let mut reader = b"sites 2\n".as_slice();
    let mut files = empty_shelf(alloc);
    let mut writer = Taker {
        text: Vec::new(alloc),
        calls,
        kind: None,
    };
    let result = prompt(alloc, &mut reader, &mut writer, &mut files, false);
    (result, writer.text)
}

/// What the dialog answers, with a reader whose call after so many fails.
fn read_from_failing(alloc: Global, calls: usize) -> Result<(), PromptFault> {
    let mut text = Vec::new(alloc);
    let mut files = empty_shelf(alloc);
    let mut reader = Giver {
        rest: b"sites 2\n".as_slice(),
        calls,
        kind: ErrorKind::Other,
    };
    prompt(alloc, &mut reader, &mut text, &mut files, false)
}

/// A writer that stops ends the dialog, and so does a reader that fails. The writer's call after each line is its flush.
#[test]
fn one_call_of_a_dialog_fails(rt: HostRuntime) -> Result<(), Fail> {
    for calls in 0..8usize {
        let (result, text) = told_to_failing(rt.alloc(), calls);
        assert_eq!(rt; result, Err(PromptFault::WriteFault));
        assert_eq!(rt; text.as_slice(), &b"1 ready\n"[..calls.saturating_sub(1)]);
    }
    for calls in 0..9usize {
        assert_eq!(rt;
            read_from_failing(rt.alloc(), calls),
            Err(PromptFault::ReadFault)
        );
    }
    Ok(())
}

/// What is typed where memory is scarce.
const SCARCE: &[u8] =
    b"sites 2 preset 1\nload 1 0 0\nflight\nbook 0 0\nrun\nsites\nsegments\nload 9 0 0\nloud\nload 01\nrun 01\nundo\nnote a\nnotes n\nopen early\nnote b\nhelp\n";

/// The dialog on that with so many bytes of memory.
fn dialog_within(alloc: Global, bytes: usize) -> Result<Dialog, AllocError> {
    let heap = LocalHeap::new(alloc, bytes)?;
    Ok(dialog_in(alloc, &heap))
}

fn dialog_in(alloc: Global, heap: &LocalHeap) -> Dialog {
    let mut reader = SCARCE;
    let mut told = Vec::new(alloc);
    let mut files = empty_shelf(alloc);
    let result = prompt(heap, &mut reader, &mut told, &mut files, false);
    (result, told)
}

/// Whether the dialog ends well and tells this. Else memory was refused.
fn is_whole(rt: &impl Abort, dialog: Dialog, text: &[u8]) -> bool {
    let (result, told) = dialog;
    if result.is_ok() {
        assert!(rt; told.as_slice() == text);
        return true;
    }
    assert_eq!(rt; result, Err(PromptFault::OutOfMemory));
    false
}

/// Whatever allocation is refused, the dialog ends with that, or is the same as with ample memory.
#[test]
fn a_dialog_runs_out_of_memory(rt: HostRuntime) -> Result<(), Fail> {
    let text = told_on(&rt, rt.alloc(), SCARCE);
    for step in 1..6000usize {
        let dialog = dialog_within(rt.alloc(), step * 64)?;
        if is_whole(&rt, dialog, text.as_slice()) {
            return Ok(());
        }
    }
    Err(Fail::new("the dialog never ended well"))
}
