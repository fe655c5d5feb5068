//! Cases of topic compaction, on records as in the cases of records.

use crate::{consumers, records};
use anyhow::Result;
use cases_items::words;
use dbl_base::Text;
use dbl_compact::{compact, kept_records_are_kept, kept_records_make_the_same_consumer};
use dbl_consume::{Consumer, Kind, kind};
use dbl_record::Record;
use std::alloc::Global;
use std::fmt::Write;

fn placeholder(alloc: Global) -> Result<Text> {
    Ok(Text::of(alloc, "__debezium_unavailable_value")?)
}

// A text, or `null` if it is absent.
fn text_or<'a>(text: &'a Option<Text>, null: &'a Text) -> &'a Text {
    match text {
        Some(text) => text,
        None => null,
    }
}

/// Adds the kind of each record's effect, or why it is refused.
pub fn show_kinds(alloc: Global, shown: &mut String, arguments: &str) -> Result<()> {
    let records = records::records(alloc, arguments)?;
    let null = Text::of(alloc, "null")?;
    let placeholder = placeholder(alloc)?;
    for record in &records {
        if !shown.is_empty() {
            words::add(shown, ", ")?;
        }
        show_effect(alloc, shown, &placeholder, &null, record)?;
    }
    Ok(())
}

fn show_effect(
    alloc: Global,
    shown: &mut String,
    placeholder: &Text,
    null: &Text,
    record: &Record,
) -> Result<()> {
    let key = text_or(&record.key, null);
    let value = text_or(&record.value, null);
    match kind(alloc, placeholder, &record.topic, key, value) {
        Ok(kind) => {
            let end = show_kind(shown, &kind);
            drop(kind);
            end
        }
        Err(error) => {
            let end = words::said(shown, &error);
            drop(error);
            end
        }
    }
}

fn show_kind(shown: &mut String, kind: &Kind) -> Result<()> {
    match kind {
        Kind::Nothing => words::add(shown, "nothing"),
        Kind::Wipe => words::add(shown, "wipe"),
        Kind::Remove { key } => show_key(shown, "remove", key, ""),
        Kind::Set { key, whole: true } => show_key(shown, "set", key, " whole"),
        Kind::Set { key, whole: false } => show_key(shown, "set", key, " in part"),
    }
}

fn show_key(shown: &mut String, before: &str, key: &Text, after: &str) -> Result<()> {
    write!(shown, "{before} {key}{after}")?;
    Ok(())
}

/// Adds the positions of the records that are kept, and whether a consumer of these has the same
/// rows.
pub fn show_kept(alloc: Global, shown: &mut String, arguments: &str) -> Result<()> {
    let records = records::records(alloc, arguments)?;
    kept_records_make_the_same_consumer();
    kept_records_are_kept();
    match compact(alloc, &placeholder(alloc)?, &records) {
        Ok(kept) => show_compacted(alloc, shown, &records, &kept),
        Err(error) => words::said(shown, &error),
    }
}

fn show_compacted(
    alloc: Global,
    shown: &mut String,
    records: &Vec<Record>,
    kept: &Vec<Record>,
) -> Result<()> {
    words::add(shown, "kept")?;
    for record in kept {
        write!(shown, " {}/{}", record.position, record.ordinal)?;
    }
    let all = rows(alloc, records)?;
    let left = rows(alloc, kept)?;
    write!(shown, ", the same rows: {}", all == left)?;
    Ok(())
}

// The rows of a consumer of the records, as they are printed.
fn rows(alloc: Global, records: &Vec<Record>) -> Result<String> {
    let mut rows = String::new(alloc);
    let mut consumer = consumers::consumer(alloc)?;
    let end = put_rows(alloc, records, &mut consumer, &mut rows);
    drop(consumer);
    match end {
        Ok(()) => Ok(rows),
        Err(error) => Err(error),
    }
}

fn put_rows(
    alloc: Global,
    records: &Vec<Record>,
    consumer: &mut Consumer,
    rows: &mut String,
) -> Result<()> {
    let null = Text::of(alloc, "null")?;
    for record in records {
        let key = text_or(&record.key, &null);
        let value = text_or(&record.value, &null);
        consumer.apply(&record.topic, key, value)?;
    }
    consumers::print(alloc, rows, consumer)
}
