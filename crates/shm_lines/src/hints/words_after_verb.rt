//! The verbs of a script, and the words that stand behind each.
use crate::hints::expected_word::Word;

/// The verbs of a script.
pub const VERBS: [&str; 16] = [
    "load", "store", "deliver", "repeat", "lose", "tick", "restart", "show", "back", "sites",
    "get", "attach", "detach", "remove", "set", "stat",
];

/// The words that stand behind a verb.
pub fn words_after(verb: &[u8]) -> &'static [Word] {
    match verb {
        b"load" => &[Word::Site, Word::Attachment, Word::Offset],
        b"store" => &[Word::Site, Word::Attachment, Word::Offset, Word::Byte],
        b"deliver" | b"repeat" | b"lose" => &[Word::Envelope],
        b"tick" | b"restart" => &[Word::Site],
        b"show" => &[Word::Segment, Word::Index],
        b"back" => &[Word::Events],
        b"sites" => &[
            Word::Sites,
            Word::Preset,
            Word::Pages,
            Word::Frames,
            Word::Limit,
        ],
        other => words_of_a_call(other),
    }
}

/// The words that stand behind the verb of a segment call.
fn words_of_a_call(verb: &[u8]) -> &'static [Word] {
    match verb {
        b"get" => &[
            Word::Site,
            Word::User,
            Word::Group,
            Word::Key,
            Word::Size,
            Word::Mode,
            Word::Flags,
        ],
        b"attach" => &[
            Word::Site,
            Word::User,
            Word::Group,
            Word::Segment,
            Word::Access,
        ],
        b"detach" => &[Word::Site, Word::Attachment],
        b"set" => &[
            Word::Site,
            Word::User,
            Word::Group,
            Word::Segment,
            Word::User,
            Word::Group,
            Word::Mode,
        ],
        _ => &[Word::Site, Word::User, Word::Group, Word::Segment],
    }
}
