//! The whole input, before anything runs.
ghost use Rattle.std.specs.Prelude.{◌≡◌, ◌≢◌, false, take, IfErr, IfOk, IfSome};
ghost use Rattle.shm_lines.specs.Limits.{max_bytes};
ghost use Rattle.shm_report.specs.Causes.{is_after_reading, IsOther};
ghost use Rattle.shm_report.specs.declared.report_error.ReportFault.TheVariants as cause;

use crate::report_error::ReportFault;
use shm_text::read_up_to;
use std::alloc::Global;
use std::io::Read;

/// How many bytes are read at most: one byte more than all lines of a workload can have.
const MAX_BYTES: usize = 10_000 * 201 + 1;

/// How many bytes are read at once.
const CHUNK: usize = 8192;

/// Reads to the end, or until there are more bytes than a workload can have. Any error of the reader ends it.
pub(crate) fn read_all<I: Read>(alloc: Global, reader: &mut I) -> Result<Vec<u8>, ReportFault>
    ensures front { IfOk result (λ bytes. IfSome (I.remaining reader.old) (λ all. bytes.items ≡ take max_bytes all)) }
    ensures fault { IfErr result IsOther }
    ensures unread { IfErr result (λ fault. is_after_reading fault ≡ false) }
    ensures unwritten { IfErr result (λ fault. fault ≢ cause.WriteFault) }
{
    let mut bytes = Vec::new(alloc);
    let mut chunk = [0u8; CHUNK];
    'chunks: while bytes.len() < MAX_BYTES {
        let room = MAX_BYTES - bytes.len();
        let Ok(count) = read_up_to(reader, &mut chunk, room) else {
            return Err(ReportFault::ReadFault);
        };
        if count == 0 {
            return Ok(bytes);
        }
        match bytes.extend_from_slice(&chunk[..count]) {
            Ok(()) => {}
            Err(_) => return Err(ReportFault::OutOfMemory),
        }
    }
    Ok(bytes)
}
