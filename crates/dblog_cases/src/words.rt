//! The words of a line.

/// What is answered to a line, beside what a run answers.
#[derive(Clone, Copy)]
pub enum Reply {
    Nothing,
    /// The line.
    Line,
    /// The line after a question mark: it has another form, or belongs to a run where there is
    /// none.
    Refusal,
}

/// A name and a number.
pub fn named_number(rest: &str) -> Option<(&str, u64)> {
    let (name, number) = rest.split_once(' ')?;
    Some((name, number.parse().ok()?))
}

/// How many lines, and the line.
pub fn repeated(rest: &str) -> Option<(u32, &str)> {
    let (count, text) = rest.split_once(' ')?;
    Some((count.parse().ok()?, text))
}

/// The first number, the last one, and the line.
pub fn numbered(rest: &str) -> Option<(u32, u32, &str)> {
    let (from, rest) = repeated(rest)?;
    let (to, text) = repeated(rest)?;
    Some((from, to, text))
}
