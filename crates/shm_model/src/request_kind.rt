/// What a transaction gives its requester: a copy to read, or the page to write (Li and Hudak 1989, §3).
#[derive(Clone, Copy, Debug, PartialEq, Eq)]
pub enum Kind {
    Read,
    Write,
}
