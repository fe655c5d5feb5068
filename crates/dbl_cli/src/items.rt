//! The product's own check of the arguments: which of them begin with `-`, and where the positional
//! arguments are.

ghost use Rattle.std.specs.Prelude.{◌≡◌, ◌≤◌, false, Some, length};
ghost use Rattle.std.specs.Prelude.{drop, option_map, position, IfSome};
ghost use Rattle.std.specs.List.{list_any, before_first};
ghost use Rattle.dbl_cli.specs.Items.{is_dashed};
ghost use Rattle.dbl_cli.specs.Names.{all_named, texts};
ghost use Rattle.dbl_cli.specs.Checks.{is_equals, after_hyphens, kind_of, next_of, words_after};
ghost use Rattle.dbl_cli.specs.Checks.{plain_len, is_end, ends_well, are_items};

use crate::names::{Name, has_value};

/// The role of an argument that begins an item or follows an option.
#[derive(Clone, Copy)]
pub enum Next {
    /// A flag, an option joined with its value, or the value of an option.
    Item,
    /// An option whose value is the next argument.
    Value,
    /// A positional argument.
    Stop,
    Bad,
}

fn is_dashed(word: &str) -> bool
    ensures { result ≡ is_dashed word.now }
{
    match word.as_bytes() {
        [first, ..] => *first == b'-',
        [] => false,
    }
}

/// The rest of an argument after two hyphens.
fn after_hyphens(word: &[u8]) -> Option<&[u8]>
    ensures { option_map (λ rest. rest.now) result ≡ after_hyphens word.now }
{
    match word {
        [a, b, rest @ ..] if *a == b'-' && *b == b'-' => Some(rest),
        _ => None,
    }
}

fn equals_at(rest: &[u8]) -> Option<usize>
    ensures { result ≡ position is_equals rest.now }
{
    rest.iter().position(|b| *b == b'=')
}

/// The name before the first `=`, and whether there is one.
fn name_in(rest: &[u8]) -> (&[u8], bool)
    ensures name { result.0.now ≡ before_first is_equals rest.now }
    ensures joined { result.1 ≡ list_any is_equals rest.now }
{
    match equals_at(rest) {
        Some(end) => (&rest[..end], true),
        None => (rest, false),
    }
}

fn kind_of(names: &[Name], word: &str) -> Next
    ensures { result ≡ kind_of (all_named names.now) word.now }
{
    let Some(rest) = after_hyphens(word.as_bytes()) else {
        return Next::Bad;
    };
    let (name, is_joined) = name_in(rest);
    match has_value(names, name) {
        None => Next::Bad,
        Some(true) if is_joined => Next::Item,
        Some(true) => Next::Value,
        Some(false) if is_joined => Next::Bad,
        Some(false) => Next::Item,
    }
}

/// The role of an argument after others, of which the last may be an option that awaits its value.
fn next_of(names: &[Name], waits: bool, word: &str) -> Next
    ensures { result ≡ next_of (all_named names.now) waits word.now }
{
    if waits {
        if is_dashed(word) {
            Next::Bad
        } else {
            Next::Item
        }
    } else if is_dashed(word) {
        kind_of(names, word)
    } else {
        Next::Stop
    }
}

/// The index after the leading flags and options, if they are known.
fn words_after(names: &[Name], words: &[&str]) -> Option<usize>
    ensures words { option_map (λ end. texts (drop end words.now)) result ≡
        words_after (all_named names.now) false (texts words.now) }
    ensures within { IfSome result (λ end. end ≤ length words.now) }
{
    let mut waits = false;
    for (i, word) in words.iter().enumerate() {
        match next_of(names, waits, word) {
            Next::Item => waits = false,
            Next::Value => waits = true,
            Next::Stop => return Some(i),
            Next::Bad => return None,
        }
    }
    if waits { None } else { Some(words.len()) }
}

/// The number of leading arguments that don't begin with `-`.
fn plain_len(words: &[&str]) -> usize
    ensures len { result ≡ plain_len (texts words.now) }
    ensures within { result ≤ length words.now }
{
    let mut len = 0;
    for word in words {
        if is_dashed(word) {
            return len;
        }
        len += 1;
    }
    len
}

/// Whether the arguments consist of flags and options.
fn is_end(names: &[Name], words: &[&str]) -> bool
    ensures { result ≡ is_end (words_after (all_named names.now) false (texts words.now)) }
{
    match words_after(names, words) {
        Some(end) => end == words.len(),
        None => false,
    }
}

/// Whether the arguments, which begin with no flag or option, are positional ones followed by flags
/// and options.
fn ends_well(names: &[Name], least: usize, most: usize, words: &[&str]) -> bool
    ensures { result ≡ ends_well (all_named names.now) least most (Some (texts words.now)) }
{
    let places = plain_len(words);
    if !is_end(names, &words[places..]) {
        return false;
    }
    least <= places && places <= most
}

/// Whether the arguments are a valid list of items, apart from names given twice.
pub fn are_items(names: &[Name], least: usize, most: usize, words: &[&str]) -> bool
    ensures { result ≡ are_items (all_named names.now) least most (texts words.now) }
{
    match words_after(names, words) {
        Some(start) => ends_well(names, least, most, &words[start..]),
        None => false,
    }
}
