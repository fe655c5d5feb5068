//! The values of options, and the positional arguments.

ghost use Rattle.std.specs.Prelude.{◌≡◌, ◌<◌, ◌≤◌, ◌&&◌, true, Some, length};
ghost use Rattle.std.specs.Prelude.{map, codes, unwrap_or, option_copied, option_map, IfOk};
ghost use Rattle.std.specs.List.{list_all, list_any, slice_split};
ghost use Rattle.std.specs.Char.{is_ascii_digit};
ghost use Rattle.std.specs.Str.Parse.{digits_value};
ghost use Rattle.dbl_model_table.specs.Tables.{is_name_byte, is_name, are_distinct, same_name};
ghost use Rattle.dbl_model_table.specs.Identities.{default_placeholder};
ghost use Rattle.dbl_cli.specs.Names.{texts};
ghost use Rattle.dbl_cli_commands.specs.Values.{is_number, number_or, number_if, passes};
ghost use Rattle.dbl_cli_commands.specs.Values.{is_placeholder, is_comma, table_in, is_table};
ghost use Rattle.dbl_cli_commands.specs.Values.{are_tables, key_in, is_column, is_key};
ghost use Rattle.dbl_cli_commands.specs.Values.{tables_in, are_keys};
ghost use Rattle.dbl_cli_commands.specs.Values.{is_named, around_last_colon, mask_parts, is_stars};
ghost use Rattle.dbl_cli_commands.specs.Values.{is_masked, mask_in, is_mask};
ghost use Rattle.dbl_cli.specs.Reads.{Reads, ReadsBy};

use crate::{CliError, MaskWord};
use dbl_base::{Seq, Text};
use dbl_model_table::{TableKey, TableName};
use std::alloc::{AllocError, Global};

fn are_digits(text: &str) -> bool
    ensures { result ≡ list_all is_ascii_digit text.now }
{
    text.bytes().all(|b| b.is_ascii_digit())
}

fn digits_value(text: &str) -> Option<u32>
    requires digits { list_all is_ascii_digit text.now ≡ true }
    requires some { 0 < length text.now }
    requires short { length text.now ≤ 9 }
    ensures { result ≡ Some (digits_value 10 text.now) }
{
    match text.parse::<u32>() {
        Ok(value) => Some(value),
        Err(_) => None,
    }
}

/// Parses a number of 1 to 9 decimal digits, within bounds.
pub fn number(text: &str, least: u32, most: u32) -> Result<u32, CliError>
    ensures { Reads (is_number least most text.now) (digits_value 10 text.now) result }
{
    if text.is_empty() || text.len() > 9 || !are_digits(text) {
        return Err(CliError::Usage);
    }
    match digits_value(text) {
        Some(value) if least <= value && value <= most => Ok(value),
        _ => Err(CliError::Usage),
    }
}

/// The number of an option, or its default.
pub fn number_or(text: Option<&str>, default: u32, least: u32, most: u32) -> Result<u32, CliError>
    ensures { Reads (passes (is_number least most) (option_copied text.entry))
        (number_or default (option_copied text.entry)) result }
{
    match text {
        None => Ok(default),
        Some(text) => number(text, least, most),
    }
}

/// The number of an option, if it is there.
pub fn number_or_none(text: Option<&str>, least: u32, most: u32) -> Result<Option<u32>, CliError>
    ensures { Reads (passes (is_number least most) (option_copied text.entry))
        (number_if (option_copied text.entry)) result }
{
    match text {
        None => Ok(None),
        Some(text) => Ok(Some(number(text, least, most)?)),
    }
}

fn is_name_letter(byte: u8) -> bool
    ensures { result ≡ is_name_byte byte }
{
    byte.is_ascii_alphanumeric() || byte == b'_' || byte == b'-'
}

fn are_name_letters(text: &str) -> bool
    ensures { result ≡ list_all is_name_byte text.now }
{
    text.bytes().all(is_name_letter)
}

/// Whether the text is 1 to 63 letters, digits, `_` and `-`.
fn is_name(text: &str) -> bool
    ensures { result ≡ is_name text.now }
{
    !text.is_empty() && text.len() <= 63 && are_name_letters(text)
}

fn name(alloc: Global, text: &str) -> Result<Text, CliError>
    ensures { Reads (is_name text.now) text.now result }
{
    if !is_name(text) {
        return Err(CliError::Usage);
    }
    Ok(Text::of(alloc, text)?)
}

/// The name of an option, or `demo`.
pub fn name_or_demo(alloc: Global, text: Option<&str>) -> Result<Text, CliError>
    ensures { Reads (passes is_name (option_copied text.entry))
        (unwrap_or (option_copied text.entry) (codes "demo")) result }
{
    match text {
        None => Ok(Text::of(alloc, "demo")?),
        Some(text) => name(alloc, text),
    }
}

fn placeholder(alloc: Global, text: &str) -> Result<Text, CliError>
    ensures { Reads (is_placeholder text.now) text.now result }
{
    if text.is_empty() || text.len() > 255 {
        return Err(CliError::Usage);
    }
    Ok(Text::of(alloc, text)?)
}

/// The placeholder of an option, or Debezium's default.
pub fn placeholder_or_own(alloc: Global, text: Option<&str>) -> Result<Text, CliError>
    ensures { Reads (passes is_placeholder (option_copied text.entry))
        (unwrap_or (option_copied text.entry) default_placeholder) result }
{
    match text {
        None => Ok(Text::of(alloc, "__debezium_unavailable_value")?),
        Some(text) => placeholder(alloc, text),
    }
}

fn named(alloc: Global, schema: &str, table: &str) -> Result<TableName, CliError>
    ensures { Reads (is_named (record { schema = schema.now; name = table.now }))
        (record { schema = schema.now; name = table.now }) result }
{
    let schema = name(alloc, schema)?;
    let name = name(alloc, table)?;
    Ok(TableName { schema, name })
}

/// Parses a table, `<schema>.<name>`.
fn table(alloc: Global, word: &str) -> Result<TableName, CliError>
    ensures { Reads (is_table word.now) (table_in word.now) result }
{
    let Some((schema, table)) = word.split_once('.') else {
        return Err(CliError::Usage);
    };
    named(alloc, schema, table)
}

/// Parses a number of asterisks, of 1 to 3 digits and at most 255.
fn stars(text: &str) -> Result<u32, CliError>
    ensures { Reads (is_stars text.now) (digits_value 10 text.now) result }
{
    if text.len() > 3 {
        return Err(CliError::Usage);
    }
    number(text, 0, 255)
}

fn column(alloc: Global, text: &str) -> Result<Text, CliError>
    ensures { Reads (is_column text.now) text.now result }
{
    if text.is_empty() {
        return Err(CliError::Usage);
    }
    Ok(Text::of(alloc, text)?)
}

fn around_last_colon(text: &str) -> Option<(&str, &str)>
    ensures { option_map (λ x. (x.0.now, x.1.now)) result ≡ around_last_colon text.now }
{
    text.rsplit_once(':')
}

/// Parses a column and its number of asterisks, `<column>:<n>`.
fn masked_column(alloc: Global, text: &str) -> Result<(Text, u32), CliError>
    ensures { Reads (is_masked (mask_parts text.now))
        ((mask_parts text.now).0, digits_value 10 (mask_parts text.now).1) result }
{
    let Some((name, count)) = around_last_colon(text) else {
        return Err(CliError::Usage);
    };
    let stars = stars(count)?;
    let column = column(alloc, name)?;
    Ok((column, stars))
}

/// Parses a mask, `<schema>.<name>.<column>:<n>`; the column may have dots and colons.
fn mask(alloc: Global, word: &str) -> Result<MaskWord, CliError>
    ensures { Reads (is_mask word.now) (mask_in word.now) result }
{
    let Some((schema, rest)) = word.split_once('.') else {
        return Err(CliError::Usage);
    };
    let Some((table, rest)) = rest.split_once('.') else {
        return Err(CliError::Usage);
    };
    let (column, stars) = masked_column(alloc, rest)?;
    let table = named(alloc, schema, table)?;
    Ok(MaskWord {
        table,
        column,
        stars,
    })
}

/// The mask of an option, if it is there.
pub fn mask_or_none(alloc: Global, word: Option<&str>) -> Result<Option<MaskWord>, CliError>
    ensures { Reads (passes is_mask (option_copied word.entry))
        (option_map mask_in (option_copied word.entry)) result }
{
    match word {
        None => Ok(None),
        Some(word) => Ok(Some(mask(alloc, word)?)),
    }
}

fn all_tables(alloc: Global, words: &[&str]) -> Result<Vec<TableName>, CliError>
    ensures { ReadsBy (λ v. v.items) (list_all is_table (texts words.now))
        (map table_in (texts words.now)) result }
{
    let mut tables = Vec::new(alloc);
    for word in words {
        tables.push(table(alloc, word)?)?;
    }
    Ok(tables)
}

fn has_table(table: &TableName, others: &[TableName]) -> bool
    ensures { result ≡ list_any (same_name table.now) others.now }
{
    others.iter().any(|other| *table == *other)
}

fn are_distinct_tables(tables: &[TableName]) -> bool
    ensures { result ≡ are_distinct same_name tables.now }
{
    for (i, table) in tables.iter().enumerate() {
        if has_table(table, &tables[i + 1..]) {
            return false;
        }
    }
    true
}

/// Parses the tables of the arguments, which must differ.
pub fn tables(alloc: Global, words: &[&str]) -> Result<Seq<TableName>, CliError>
    ensures { Reads (are_tables (texts words.now)) (map table_in (texts words.now)) result }
{
    let tables = all_tables(alloc, words)?;
    if !are_distinct_tables(&tables) {
        return Err(CliError::Usage);
    }
    Ok(Seq::make(tables))
}

/// The parts of a text between commas.
fn parts(alloc: Global, text: &str) -> Result<Vec<&str>, AllocError>
    ensures { IfOk result (λ v. texts v.items ≡ slice_split is_comma text.now) }
{
    text.split(',').collect(alloc)
}

fn all_columns(alloc: Global, words: &[&str]) -> Result<Vec<Text>, CliError>
    ensures { ReadsBy (λ v. v.items) (list_all is_column (texts words.now))
        (texts words.now) result }
{
    let mut columns = Vec::new(alloc);
    for word in words {
        if word.is_empty() {
            return Err(CliError::Usage);
        }
        columns.push(Text::of(alloc, word)?)?;
    }
    Ok(columns)
}

/// Parses a table's key, `<table>:<columns>`.
fn key(alloc: Global, word: &str) -> Result<TableKey, CliError>
    ensures { Reads (is_key word.now) (key_in word.now) result }
{
    let Some((front, names)) = word.split_once(':') else {
        return Err(CliError::Usage);
    };
    let table = table(alloc, front)?;
    let names = parts(alloc, names)?;
    let columns = all_columns(alloc, &names)?;
    Ok(TableKey {
        table,
        columns: Seq::make(columns),
    })
}

fn all_keys(alloc: Global, words: &[&str]) -> Result<Vec<TableKey>, CliError>
    ensures { ReadsBy (λ v. v.items) (list_all is_key (texts words.now))
        (map key_in (texts words.now)) result }
{
    let mut keys = Vec::new(alloc);
    for word in words {
        keys.push(key(alloc, word)?)?;
    }
    Ok(keys)
}

fn has_key(table: &TableName, others: &[TableKey]) -> bool
    ensures { result ≡ list_any (same_name table.now) (tables_in others.now) }
{
    for other in others {
        if *table == other.table {
            return true;
        }
    }
    false
}

fn are_distinct_keys(keys: &[TableKey]) -> bool
    ensures { result ≡ are_distinct same_name (tables_in keys.now) }
{
    for (i, key) in keys.iter().enumerate() {
        if has_key(&key.table, &keys[i + 1..]) {
            return false;
        }
    }
    true
}

/// Parses the keys of the arguments, whose tables must differ.
pub fn keys(alloc: Global, words: &[&str]) -> Result<Seq<TableKey>, CliError>
    ensures { Reads (are_keys (texts words.now)) (map key_in (texts words.now)) result }
{
    let keys = all_keys(alloc, words)?;
    if !are_distinct_keys(&keys) {
        return Err(CliError::Usage);
    }
    Ok(Seq::make(keys))
}
