//! The lines of a text.

ghost use Rattle.std.specs.Prelude.{◌≡◌, ◌<◌, ◌∷◌, length};
ghost use Rattle.dbl_base.specs.Lines.{lines_of, is_passed_over};

use memchr::memchr;

/// Splits off the first line, and returns it with the bytes after it.
pub fn next_line(bytes: &[u8]) -> (&[u8], &[u8])
    requires { 0 < length bytes.now }
    ensures first { lines_of bytes.now ≡ result.0.now ∷ lines_of result.1.now }
    ensures shorter { length result.1.now < length bytes.now }
{
    match memchr(b'\n', bytes) {
        Some(end) => (&bytes[..end], &bytes[end + 1..]),
        None => (bytes, &bytes[bytes.len()..]),
    }
}

/// Whether the line is blank or a comment.
pub fn is_blank_or_comment(line: &[u8]) -> bool
    ensures { result ≡ is_passed_over line.now }
{
    match line {
        [] => true,
        [first, ..] => *first == b'#',
    }
}
