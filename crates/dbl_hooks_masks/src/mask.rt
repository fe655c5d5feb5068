/// What is done to a text. `Stars` is as Debezium's `column.mask.with.<n>.chars`, but never longer
/// than the text; `First` is its `column.truncate.to.<n>.chars`.
#[derive(Clone, Copy)]
pub enum Mask {
    /// An asterisk for each character, at most so many.
    Stars(u32),
    /// The first characters, at most so many.
    First(u32),
}
