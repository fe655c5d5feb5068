//! Cases of a consumer's rows after records, each `TOPIC KEY VALUE`.

use anyhow::Result;
use cases_items::words;
use dbl_base::{MemOutput, Text};
use dbl_consume::Consumer;
use std::alloc::Global;

/// Adds what is answered to each record, and the rows at the end. The consumer is dropped by name:
/// that is one call, whereas a drop at the end of a scope is proved part by part.
pub fn show_rows(alloc: Global, shown: &mut String, records: &str) -> Result<()> {
    let mut consumer = consumer(alloc)?;
    let end = take_all(alloc, shown, &mut consumer, records);
    drop(consumer);
    end
}

/// A consumer that has taken nothing.
pub fn consumer(alloc: Global) -> Result<Consumer> {
    Ok(Consumer::make(alloc, Text::of(alloc, "__debezium_unavailable_value")?)?)
}

fn take_all(
    alloc: Global,
    shown: &mut String,
    consumer: &mut Consumer,
    records: &str,
) -> Result<()> {
    for record in records.split(" | ") {
        if !shown.is_empty() {
            words::add(shown, ", ")?;
        }
        take(alloc, shown, consumer, record)?;
    }
    print(alloc, shown, consumer)
}

fn take(alloc: Global, shown: &mut String, consumer: &mut Consumer, record: &str) -> Result<()> {
    let (topic, rest) = words::split(record, " ");
    let (key, value) = words::split(rest, " ");
    let topic = Text::of(alloc, topic)?;
    let key = Text::of(alloc, key)?;
    match consumer.apply(&topic, &key, &Text::of(alloc, value)?) {
        Ok(()) => words::add(shown, "taken"),
        Err(error) => words::said(shown, &error),
    }
}

/// Adds the rows of a consumer, as they are printed.
pub fn print(alloc: Global, shown: &mut String, consumer: &Consumer) -> Result<()> {
    let mut output = MemOutput::make(alloc, Vec::new(alloc));
    consumer.print(&mut output)?;
    let rows = str::from_utf8(output.bytes())?.trim_end();
    if !rows.is_empty() {
        words::line(shown)?;
    }
    words::add(shown, rows)
}
