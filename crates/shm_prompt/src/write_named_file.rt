//! Files that are written at the prompt, and what is told of them.
ghost use Rattle.std.specs.Prelude.{◌≡◌, ◌++◌, OnErr, OnOk};
ghost use Rattle.shm_prompt.specs.Dialog.{TellsMore};
ghost use Rattle.shm_prompt.specs.Saves.{Tries, Writes, not_saved, saved_to, unnamed, unwritten};

use crate::save_file_trait::SaveFile;
use std::alloc::{AllocError, Allocator};

/// Writes the file, and says so or that it can't be.
pub(crate) fn write_named<A: Allocator + Copy, S: SaveFile>(
    bytes: &[u8],
    name: &str,
    files: &mut S,
    out: &mut Vec<u8, A>,
) -> Result<(), AllocError>
    ensures tells { OnOk result (TellsMore out.old.items out.new.items) }
    ensures writes { OnOk result (Writes name.now bytes.now (S.saves files.old) (S.saves files.new) out.old.items out.new.items) }
    ensures halted { OnErr result (Tries name.now bytes.now (S.saves files.old) (S.saves files.new)) }
{
    match files.save(name, bytes) {
        Ok(()) => tell_saved(name, out),
        Err(_) => tell_unwritten(name, out),
    }
}

fn tell_saved<A: Allocator + Copy>(name: &str, out: &mut Vec<u8, A>) -> Result<(), AllocError>
    ensures { OnOk result (out.new.items ≡ out.old.items ++ saved_to name.now) }
{
    let text = format!(in *out.allocator(); "saved to {name}\n")?;
    out.extend_from_slice(text.as_bytes())
}

fn tell_unwritten<A: Allocator + Copy>(name: &str, out: &mut Vec<u8, A>) -> Result<(), AllocError>
    ensures { OnOk result (out.new.items ≡ out.old.items ++ unwritten name.now) }
{
    let text = format!(in *out.allocator(); "{name} can't be written\n")?;
    tell_unsaved(text.as_bytes(), out)
}

/// Says that nothing was saved, and behind that why.
pub(crate) fn tell_unsaved<A: Allocator + Copy>(
    why: &[u8],
    out: &mut Vec<u8, A>,
) -> Result<(), AllocError>
    ensures { OnOk result (out.new.items ≡ out.old.items ++ not_saved why.now) }
{
    out.extend_from_slice(b"not saved: ")?;
    out.extend_from_slice(why)
}

/// Says that nothing was saved, as no file was named.
pub(crate) fn tell_unnamed<A: Allocator + Copy>(out: &mut Vec<u8, A>) -> Result<(), AllocError>
    ensures { OnOk result (out.new.items ≡ out.old.items ++ unnamed) }
{
    tell_unsaved(b"the file's name is no text\n", out)
}
