//! Cases of masks, on messages as in the cases of commits. A mask is `stars/N` or `first/N`.

use anyhow::{Context, Result, bail};
use cases_items::{items, messages, words};
use dbl_base::Text;
use dbl_hooks_masks::{Hook, Mapper, Mask, mask_text, masked_messages_fit};
use dbl_pgmsg::{Message, OldTuple, Tuple, TupleCell};
use std::alloc::Global;

fn mask_of(kind: &str, most: &str) -> Result<Mask> {
    match kind {
        "stars" => Ok(Mask::Stars(most.parse()?)),
        "first" => Ok(Mask::First(most.parse()?)),
        _ => bail!("no such mask"),
    }
}

/// Adds the mask of a text: MASK/TEXT.
pub fn show_text(alloc: Global, shown: &mut String, arguments: &str) -> Result<()> {
    let mask = mask_of(items::field(arguments, 0), items::field(arguments, 1))?;
    let text = Text::of(alloc, items::field(arguments, 2))?;
    words::said(shown, &mask_text(alloc, mask, &text)?)
}

/// Adds the rows of masked messages, a line each: `mask/TABLE/COLUMN/MASK`, and the messages.
pub fn show_messages(alloc: Global, shown: &mut String, arguments: &str) -> Result<()> {
    masked_messages_fit();
    let fields = items::first_of(arguments, "mask/").context("no mask")?;
    let mask = mask_of(items::field(fields, 2), items::field(fields, 3))?;
    let function = Box::new(alloc, move |text: &Text| mask_text(alloc, mask, text))?;
    let mut mapper = mapper_of(alloc, fields, Hook::keep(mask, function))?;
    let end = show_masked(alloc, shown, &mut mapper, arguments);
    drop(mapper);
    end
}

fn mapper_of(alloc: Global, fields: &str, hook: Hook) -> Result<Mapper<Hook>> {
    let table = items::table_name(alloc, items::field(fields, 0))?;
    let column = Text::of(alloc, items::field(fields, 1))?;
    Ok(Mapper::make(alloc, table, column, hook))
}

// Each message is dropped by name: that is one call, whereas a drop at the end of a scope is proved
// variant by variant.
fn show_masked(
    alloc: Global,
    shown: &mut String,
    mapper: &mut Mapper<Hook>,
    arguments: &str,
) -> Result<()> {
    for message in messages::all(alloc, arguments)? {
        let message = mapper.message(message)?;
        let end = show_rows(shown, &message);
        drop(message);
        end?;
    }
    Ok(())
}

// The rows of an Insert, an Update or a Delete.
fn show_rows(shown: &mut String, message: &Message) -> Result<()> {
    match message {
        Message::Insert { oid: _, row } => show_tuple(shown, "I", row),
        Message::Update {
            oid: _,
            before,
            row,
        } => {
            if let Some(before) = before {
                show_old(shown, before)?;
            }
            show_tuple(shown, "U", row)
        }
        Message::Delete { oid: _, before } => show_old(shown, before),
        _ => Ok(()),
    }
}

fn show_old(shown: &mut String, old: &OldTuple) -> Result<()> {
    match old {
        OldTuple::Key(tuple) => show_tuple(shown, "K", tuple),
        OldTuple::Whole(tuple) => show_tuple(shown, "O", tuple),
    }
}

fn show_tuple(shown: &mut String, kind: &str, tuple: &Tuple) -> Result<()> {
    words::line(shown)?;
    words::add(shown, kind)?;
    for cell in tuple.cells.items() {
        words::add(shown, " ")?;
        match cell {
            TupleCell::Null => words::add(shown, "~")?,
            TupleCell::Unchanged => words::add(shown, "?")?,
            TupleCell::Text(text) => words::said(shown, text)?,
        }
    }
    Ok(())
}
