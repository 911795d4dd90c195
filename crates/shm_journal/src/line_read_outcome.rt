/// The outcome of reading the next line, without its line feed.
#[derive(Clone, Copy)]
pub enum Taken {
    /// All of it.
    Whole,
    /// Its front: the bytes ended before it did.
    Torn,
    /// Its front, and a byte more than a journal's line may have. It wasn't read on.
    TooLong,
}
