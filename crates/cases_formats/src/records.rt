//! Cases of records and their forms. A record is `POSITION/ORDINAL/LAST TOPIC KEY VALUE NEWKEY
//! OLDKEY`, where a text is `~` if it is absent, and a JSON string if it begins with `"`.

use anyhow::{Result, bail};
use cases_items::{items, words};
use dbl_base::Text;
use dbl_record::{
    ParsedLine, Record, append_line, group_length, line, parse_line, read_group, read_line,
    short_groups_have_a_form, write_group,
};
use std::alloc::Global;
use std::fmt::Write;

fn next(texts: &mut Vec<Option<Text>>) -> Option<Text> {
    match texts.pop() {
        Some(text) => text,
        None => None,
    }
}

// A record of the texts of its fields.
fn record_of(
    alloc: Global,
    position: u64,
    ordinal: u64,
    last: bool,
    mut texts: Vec<Option<Text>>,
) -> Record {
    let oldkey = next(&mut texts);
    let newkey = next(&mut texts);
    let value = next(&mut texts);
    let key = next(&mut texts);
    let topic = next(&mut texts).unwrap_or(Text::make(String::new(alloc)));
    Record {
        topic,
        key,
        value,
        position,
        ordinal,
        last,
        newkey,
        oldkey,
    }
}

/// The record of a case.
pub fn read_record(alloc: Global, text: &str) -> Result<Record> {
    let (numbers, texts) = words::split(text, " ");
    let position = items::field(numbers, 0).parse()?;
    let ordinal = items::field(numbers, 1).parse()?;
    let last = items::field(numbers, 2).parse()?;
    Ok(record_of(alloc, position, ordinal, last, words::all(alloc, texts)?))
}

/// The records of a case.
pub fn records(alloc: Global, arguments: &str) -> Result<Vec<Record>> {
    let mut records = Vec::new(alloc);
    for text in arguments.split(" | ") {
        if !text.is_empty() {
            records.push(read_record(alloc, text)?)?;
        }
    }
    Ok(records)
}

/// Adds the line of a record, or that of its copy after another line.
pub fn show_record(alloc: Global, shown: &mut String, call: &str, arguments: &str) -> Result<()> {
    let record = read_record(alloc, arguments)?;
    let end = match call {
        "line" => show_text(alloc, shown, &record),
        _ => show_appended(alloc, shown, &record),
    };
    drop(record);
    end
}

fn show_text(alloc: Global, shown: &mut String, record: &Record) -> Result<()> {
    words::add(shown, line(alloc, record)?.as_str())
}

fn show_appended(alloc: Global, shown: &mut String, record: &Record) -> Result<()> {
    let copy = record.copy(alloc)?;
    let line = append_line(b"first, ".to_vec(alloc)?, &copy);
    drop(copy);
    words::add(shown, str::from_utf8(&line?)?)
}

/// Adds a line's topic, key and value, read and parsed.
pub fn show_read(alloc: Global, shown: &mut String, arguments: &str) -> Result<()> {
    let text = Text::of(alloc, arguments)?;
    match read_line(alloc, &text) {
        Ok(line) => {
            let end = write!(shown, "{} {} {} | ", line.topic, line.key, line.value);
            drop(line);
            end?;
            show_parsed(shown, parse_line(alloc, text.as_str())?)
        }
        Err(error) => words::said(shown, &error),
    }
}

fn show_parsed(shown: &mut String, line: ParsedLine) -> Result<()> {
    let (topic, key, value) = (line.topic(), line.key(), line.value());
    let end = write!(shown, "{topic} {key} {value}");
    drop(line);
    end?;
    Ok(())
}

/// Adds how many bytes a group has, which, and whether they are read as the same group.
pub fn show_group(alloc: Global, shown: &mut String, arguments: &str) -> Result<()> {
    let group = records(alloc, arguments)?;
    let length = group_length(&group);
    if length > 100_000 {
        bail!("too long");
    }
    short_groups_have_a_form();
    write!(shown, "{length} ")?;
    show_bytes(alloc, shown, &group, write_group(alloc, &group)?.items())
}

fn show_bytes(alloc: Global, shown: &mut String, group: &Vec<Record>, bytes: &[u8]) -> Result<()> {
    words::add(shown, hex::encode(alloc, bytes)?.as_str())?;
    words::add(shown, ", read again: ")?;
    words::said(shown, &(read_group(alloc, bytes)? == *group))
}
