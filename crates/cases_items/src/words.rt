//! The words of a case, and the text of its answer.

use anyhow::Result;
use dbl_base::Text;
use dbl_value::Val;
use serde_json::Value;
use std::alloc::Global;
use std::fmt::{Debug, Display, Write};

/// What stands before the first mark, and what is after it.
pub fn split<'a>(text: &'a str, mark: &'a str) -> (&'a str, &'a str) {
    match text.split_once(mark) {
        Some(parts) => parts,
        None => (text, ""),
    }
}

/// What a word spells.
pub trait Spelled: Sized {
    fn read(alloc: Global, word: &str) -> Result<Self>;
}

/// What each of the words spells.
pub fn all<T: Spelled + Drop>(alloc: Global, words: &str) -> Result<Vec<T>> {
    let mut list = Vec::new(alloc);
    for word in words.split_whitespace() {
        list.push(T::read(alloc, word)?)?;
    }
    Ok(list)
}

// The empty text is written `''`.
impl Spelled for Text {
    fn read(alloc: Global, word: &str) -> Result<Text> {
        Ok(Text::of(alloc, if word == "''" { "" } else { word })?)
    }
}

impl Spelled for u32 {
    fn read(_alloc: Global, word: &str) -> Result<u32> {
        Ok(word.parse()?)
    }
}

impl Spelled for Option<Text> {
    fn read(alloc: Global, word: &str) -> Result<Option<Text>> {
        match word {
            "~" => Ok(None),
            _ => Ok(Some(text(alloc, word)?)),
        }
    }
}

// Null where the word is `~`, a number where it is one, else a text.
impl Spelled for Val {
    fn read(alloc: Global, word: &str) -> Result<Val> {
        if word == "~" {
            return Ok(Val::Null);
        }
        match word.parse() {
            Ok(number) => Ok(Val::Int(number)),
            Err(_) => Ok(Val::Text(text(alloc, word)?)),
        }
    }
}

/// The text of a word, which may be a JSON string.
pub fn text(alloc: Global, word: &str) -> Result<Text> {
    if word.starts_with('"') {
        return text_in(alloc, &Value::from_str(alloc, word)?);
    }
    Ok(Text::of(alloc, word)?)
}

fn text_in(alloc: Global, value: &Value) -> Result<Text> {
    Ok(Text::of(alloc, value.as_str().unwrap_or(""))?)
}

/// Adds a part of the answer.
pub fn add(shown: &mut String, part: &str) -> Result<()> {
    shown.push_str(part)?;
    Ok(())
}

/// Begins a line of the answer.
pub fn line(shown: &mut String) -> Result<()> {
    if !shown.is_empty() {
        shown.push('\n')?;
    }
    Ok(())
}

/// Adds the text of something.
pub fn said<T: Display>(shown: &mut String, what: &T) -> Result<()> {
    write!(shown, "{what}")?;
    Ok(())
}

/// Adds each field of something.
pub fn show_debug<T: Debug>(shown: &mut String, what: &T) -> Result<()> {
    write!(shown, "{what:?}")?;
    Ok(())
}
