use dblog_run::Status;
use std::io::{self, Write};

/// Writes what a run answered: its status and its text. With a tail, the number of the text's bytes
/// and so many of its last lines.
pub fn tell<W: Write>(
    status: Status,
    text: &[u8],
    tail: Option<usize>,
    writer: &mut W,
) -> io::Result<()> {
    let code = status.code();
    writeln!(writer, "status {code}")?;
    match tail {
        Some(lines) => tell_tail(text, lines, writer),
        None => writer.write_all(text),
    }
}

fn tell_tail<W: Write>(text: &[u8], lines: usize, writer: &mut W) -> io::Result<()> {
    let length = text.len();
    writeln!(writer, "{length} bytes")?;
    let count = text.split_inclusive(|byte| *byte == b'\n').count();
    let passed = count.saturating_sub(lines);
    for line in text.split_inclusive(|byte| *byte == b'\n').skip(passed) {
        writer.write_all(line)?;
    }
    Ok(())
}
