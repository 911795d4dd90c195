//! What a site's last step sent, as C takes it.
ghost use Rattle.std.specs.Prelude.{◌≡◌, None, IfNone, IfSome, length, string_bytes};
ghost use Rattle.shm_c.specs.Seat.{Printed, line_in, seat_in, sent_in, with_line};

use crate::site_handle::SiteHandle;
use std::alloc::Global;

/// How many envelopes the last step sent; 0 where the handle is empty.
#[unsafe(no_mangle)]
pub extern "C" fn leddwyfan_site_sent(alloc: Global, site: &mut SiteHandle) -> usize
    ensures kept { site.new.site ≡ site.old.site }
    ensures sent { result ≡ length (sent_in (seat_in site.old.site)) }
{
    let Some(held) = site.take(alloc) else {
        return 0;
    };
    let sent = held.sent.len();
    site.put(held);
    sent
}

/// Writes the line of an envelope that the last step sent into the buffer, where it has room, and answers the line's length. 0: there is
/// none of this place, or memory was refused.
#[unsafe(no_mangle)]
pub extern "C" fn leddwyfan_site_message(
    alloc: Global,
    site: &mut SiteHandle,
    place: usize,
    buffer: &mut [u8],
) -> usize
    ensures kept { site.new.site ≡ site.old.site }
    ensures none { IfNone (line_in place (seat_in site.old.site)) ((result ≡ 0) × (buffer.new ≡ buffer.old)) }
    ensures line { IfSome (line_in place (seat_in site.old.site)) (λ line. Printed line buffer.old buffer.new result) }
{
    let Some(held) = site.take(alloc) else {
        return 0;
    };
    let line = held.line(alloc, place);
    site.put(held);
    match line {
        Some(line) => put_line(line.as_bytes(), buffer),
        None => 0,
    }
}

/// Writes the line where it has room, and answers its length.
fn put_line(line: &[u8], buffer: &mut [u8]) -> usize
    ensures length { result ≡ length line.now }
    ensures line { buffer.new ≡ with_line line.now buffer.old }
{
    let length = line.len();
    if length <= buffer.len() {
        buffer[..length].copy_from_slice(line);
    }
    length
}
