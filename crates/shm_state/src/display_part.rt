//! How a part of a site's state is spelled: the one line that is read back as it.
use crate::display_set::SetWord;
use crate::part::Part;
use shm_keys::Segment;
use shm_lines::{AccessWord, CallWords};
use shm_wire::words::{ReplyWords, StandingWord};
use std::alloc::Allocator;
use std::fmt;

impl<A: Allocator + Copy> fmt::Display for Part<A> {
    ghost use Rattle.std.specs.Prelude.{Some};
    ghost use Rattle.shm_state.specs.PartOf.{part_in};
    ghost use Rattle.shm_state.specs.PartWords.{part_line};

    ghost output = { λ part. Some (part_line (part_in part)) };

    /// The part's line, without a line feed.
    fn fmt<W: fmt::Write>(&self, f: &mut fmt::Formatter<W>) -> fmt::Result {
        match self {
            Part::Requests(number) => write!(f, "state requests {number}"),
            Part::Calls(number) => write!(f, "state calls {number}"),
            Part::Outstanding { number, op } => {
                write!(f, "state outstanding {number} {}", CallWords(*op))
            }
            Part::Segment(segment) => write!(f, "state segment {}", SegmentWords(segment)),
            Part::Missing { id, missing } => {
                write!(f, "state missing {} {}", id.0, SetWord(*missing))
            }
            Part::Kept {
                site,
                number,
                reply,
            } => write!(f, "state kept {} {number} {}", site.0, ReplyWords(*reply)),
            Part::Entry { page, entry } => {
                write!(f, "state entry {} {} {entry}", page.seg.0, page.index)
            }
            Part::Purged(id) => write!(f, "state purged {}", id.0),
            Part::Attachment {
                number,
                id,
                size,
                ro,
            } => write!(
                f,
                "state attachment {number} {} {size} {}",
                id.0,
                AccessWord(*ro)
            ),
            Part::Book { page, book } => {
                write!(f, "state book {} {} {book}", page.seg.0, page.index)
            }
        }
    }
}

/// The words of a segment that a home made.
#[derive(Clone, Copy)]
struct SegmentWords<'a>(&'a Segment);

impl<'a> fmt::Display for SegmentWords<'a> {
    ghost use Rattle.std.specs.Prelude.{Some};
    ghost use Rattle.std.specs.List.{join_with_byte};
    ghost use Rattle.shm_state.specs.PartWords.{segment_words};

    ghost output = { λ words. Some (join_with_byte 32 (segment_words words.0.now)) };

    fn fmt<W: fmt::Write>(&self, f: &mut fmt::Formatter<W>) -> fmt::Result {
        let segment = self.0;
        let id = segment.id.0;
        let key = segment.key.0;
        let size = segment.size;
        let mode = segment.mode;
        let uid = segment.uid;
        let gid = segment.gid;
        let cuid = segment.cuid;
        let cgid = segment.cgid;
        let nattch = segment.nattch;
        let standing = StandingWord(segment.marked);
        write!(
            f,
            "{id} {key} {size} {mode} {uid} {gid} {cuid} {cgid} {nattch} {standing}"
        )
    }
}
