ghost use Rattle.std.specs.Prelude.{◌≡◌, ◌<◌, IfOk};
ghost use Rattle.shm_place.specs.Limits.{page_bytes};
ghost use Rattle.shm_model.specs.Access as model;
ghost use Rattle.shm_attach.specs.Attachments.{attachments_of};
ghost use Rattle.shm_attach.specs.Right.{place_of};

use crate::access_error::Denied;
use crate::attachments::Attachments;
use shm_place::{PageId, place, rounded};

/// The page, and the offset within it, that an access through the attachment `number` reaches at an offset of its segment.
#[inline(always)]
pub fn right(
    attachments: &Attachments,
    number: u32,
    offset: u32,
    for_store: bool,
) -> Result<(PageId, usize), Denied>
    ensures place { place_of result ≡ model.right (attachments_of attachments.now) number offset for_store }
    ensures within { IfOk result (λ place. place.1 < page_bytes) }
{
    let Some(attachment) = attachments.at(number) else {
        return Err(Denied::NoAttachment);
    };
    if for_store && attachment.ro {
        return Err(Denied::ReadOnly);
    }
    if offset as u64 >= rounded(attachment.size) {
        return Err(Denied::OutOfSegment);
    }
    let (index, within) = place(offset);
    let page = PageId {
        seg: attachment.id,
        index,
    };
    Ok((page, within))
}
