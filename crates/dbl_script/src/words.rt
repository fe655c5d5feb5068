//! Readers of the parts of a line: names, numbers, types and texts.

ghost use Rattle.std.specs.Prelude.{◌≡◌, ◌≤◌, ◌<◌, ◌∷◌, ◌++◌, Some, length};
ghost use Rattle.std.specs.Prelude.{codes, bytes_eq, option_map, true};
ghost use Rattle.std.specs.List.{list_all};
ghost use Rattle.std.specs.Char.{is_ascii_digit};
ghost use Rattle.std.specs.Str.Parse.{digits_value};
ghost use Rattle.dbl_script.specs.Words.{parts_at};
ghost use Rattle.dbl_script.specs.Reads.{Reads, Gives};
ghost use Rattle.dbl_script.specs.Texts.{utf8_text, name_of, table_name_of, is_session_byte};
ghost use Rattle.dbl_script.specs.Texts.{session_of, is_column_byte, column_name_of, number_of};
ghost use Rattle.dbl_script.specs.Texts.{listed_oid_of, oid_of, escape_of};
ghost use Rattle.dbl_script.specs.Texts.{escapes_of, unescaped_bytes, text_of};
ghost use Rattle.dbl_script.specs.TypeNames.{all_named, first_oid};

use crate::fault::Fault;
use crate::parts::{Parts, cut};
use dbl_base::Text;
use dbl_model_table::TableName;
use std::alloc::Global;

/// Whether the word is this text.
pub fn is_word(word: &[u8], text: &str) -> bool
    ensures { result ≡ bytes_eq word.now text.now }
{
    word == text.as_bytes()
}

#[tactic(auto, unfolding(crate::specs::Texts::utf8_text))]
fn utf8(alloc: Global, bytes: &[u8]) -> Result<Text, Fault>
    ensures { Reads (utf8_text bytes.now) result }
{
    let Ok(text) = str::from_utf8(bytes) else {
        return Err(Fault::Bad);
    };
    Ok(Text::of(alloc, text)?)
}

#[tactic(auto, unfolding(crate::specs::Texts::name_of))]
fn name(alloc: Global, bytes: &[u8]) -> Result<Text, Fault>
    ensures { Reads (name_of bytes.now) result }
{
    if bytes.is_empty() || cut(b'.', bytes).is_some() {
        return Err(Fault::Bad);
    }
    utf8(alloc, bytes)
}

/// Reads a table's name, `<schema>.<table>`.
#[tactic(auto, unfolding(crate::specs::Texts::table_name_of))]
pub fn table_name(alloc: Global, word: &[u8]) -> Result<TableName, Fault>
    ensures { Reads (table_name_of word.now) result }
{
    let Some((schema, table)) = cut(b'.', word) else {
        return Err(Fault::Bad);
    };
    let schema = name(alloc, schema)?;
    let name = name(alloc, table)?;
    Ok(TableName { schema, name })
}

fn are_session_bytes(word: &[u8]) -> bool
    ensures { result ≡ list_all is_session_byte word.now }
{
    word.iter()
        .all(|b| b.is_ascii_lowercase() || b.is_ascii_digit())
}

/// Reads a session's name.
#[tactic(auto, unfolding(crate::specs::Texts::session_of))]
pub fn session(alloc: Global, word: &[u8]) -> Result<Text, Fault>
    ensures { Reads (session_of word.now) result }
{
    if word.is_empty() || word.len() > 16 || !are_session_bytes(word) {
        return Err(Fault::Bad);
    }
    utf8(alloc, word)
}

fn are_column_bytes(word: &[u8]) -> bool
    ensures { result ≡ list_all is_column_byte word.now }
{
    word.iter().all(|b| b.is_ascii_lowercase() || b.is_ascii_digit() || *b == b'_')
}

/// Reads a column's name.
#[tactic(auto, unfolding(crate::specs::Texts::column_name_of))]
pub fn column_name(alloc: Global, word: &[u8]) -> Result<Text, Fault>
    ensures { Reads (column_name_of word.now) result }
{
    if word.is_empty() || word.len() > 63 || !are_column_bytes(word) {
        return Err(Fault::Bad);
    }
    utf8(alloc, word)
}

fn are_digits(word: &[u8]) -> bool
    ensures { result ≡ list_all is_ascii_digit word.now }
{
    word.iter().all(|b| b.is_ascii_digit())
}

fn digits_value(digits: &[u8]) -> Option<u32>
    requires digits { list_all is_ascii_digit digits.now ≡ true }
    requires some { 0 < length digits.now }
    requires short { length digits.now ≤ 9 }
    ensures { result ≡ Some (digits_value 10 digits.now) }
{
    let Ok(text) = str::from_utf8(digits) else {
        return None;
    };
    match text.parse() {
        Ok(value) => Some(value),
        Err(_) => None,
    }
}

/// Reads a number of 1 to 9 decimal digits.
#[tactic(auto, unfolding(crate::specs::Texts::number_of))]
pub fn number(word: &[u8]) -> Option<u32>
    ensures { result ≡ number_of word.now }
{
    if word.is_empty() || word.len() > 9 || !are_digits(word) {
        return None;
    }
    digits_value(word)
}

/// The name of a PostgreSQL type, and its OID (catalog `pg_type`).
#[derive(Clone, Copy)]
struct NamedType {
    name: &'static str,
    oid: u32,
}

static TYPES: [NamedType; 18] = [
    NamedType {
        name: "text",
        oid: 25,
    },
    NamedType {
        name: "varchar",
        oid: 1043,
    },
    NamedType {
        name: "bpchar",
        oid: 1042,
    },
    NamedType {
        name: "json",
        oid: 114,
    },
    NamedType {
        name: "jsonb",
        oid: 3802,
    },
    NamedType {
        name: "numeric",
        oid: 1700,
    },
    NamedType {
        name: "uuid",
        oid: 2950,
    },
    NamedType {
        name: "bytea",
        oid: 17,
    },
    NamedType {
        name: "bool",
        oid: 16,
    },
    NamedType {
        name: "int2",
        oid: 21,
    },
    NamedType {
        name: "int4",
        oid: 23,
    },
    NamedType {
        name: "int8",
        oid: 20,
    },
    NamedType {
        name: "float4",
        oid: 700,
    },
    NamedType {
        name: "float8",
        oid: 701,
    },
    NamedType {
        name: "date",
        oid: 1082,
    },
    NamedType {
        name: "time",
        oid: 1083,
    },
    NamedType {
        name: "timestamp",
        oid: 1114,
    },
    NamedType {
        name: "timestamptz",
        oid: 1184,
    },
];

/// The OID of the first of these types that has the name.
fn first_oid(types: &[NamedType], word: &[u8]) -> Option<u32>
    ensures { result ≡ first_oid (all_named types.now) word.now }
{
    for ty in types {
        if is_word(word, ty.name) {
            return Some(ty.oid);
        }
    }
    None
}

fn listed_oid(word: &[u8]) -> Option<u32>
    ensures { result ≡ listed_oid_of word.now }
{
    first_oid(TYPES.as_slice(), word)
}

/// Reads a type's OID, by the type's name or as a number.
#[tactic(auto, unfolding(crate::specs::Texts::oid_of))]
pub fn oid(word: &[u8]) -> Option<u32>
    ensures { result ≡ oid_of word.now }
{
    if word.starts_with(b"oid") {
        return number(&word[3..]);
    }
    listed_oid(word)
}

/// The byte of two hexadecimal digits, and the bytes after them.
#[tactic(auto, unfolding(crate::specs::Texts::escape_of))]
fn escape(part: &[u8]) -> Option<(u8, &[u8])>
    ensures { option_map (λ x. x.0 ∷ x.1.now) result ≡ escape_of part.now }
{
    let [high, low, rest @ ..] = part else {
        return None;
    };
    let high = char::from(*high).to_digit(16)?;
    let low = char::from(*low).to_digit(16)?;
    Some(((high * 16 + low) as u8, rest))
}

/// Appends the bytes of the parts, each of which follows a `%`, to those of the first part.
fn read_escapes(parts: &mut Parts<'_>, plain: Vec<u8>) -> Result<Vec<u8>, Fault>
    ensures { Gives (λ v. v.items) result
        (option_map (λ others. plain.items ++ others) (escapes_of parts.old)) }
{
    let mut bytes = plain;
    'parts: while let Some(part) = parts.next_part() {
        let Some((byte, rest)) = escape(part) else {
            return Err(Fault::Bad);
        };
        bytes.push(byte)?;
        bytes.extend_from_slice(rest)?;
    }
    Ok(bytes)
}

#[tactic(auto, unfolding(crate::specs::Texts::unescaped_bytes))]
fn unescaped_bytes(alloc: Global, word: &[u8]) -> Result<Vec<u8>, Fault>
    ensures { Gives (λ v. v.items) result (unescaped_bytes (parts_at 37 word.now)) }
{
    let mut parts = Parts::of(b'%', word);
    let Some(plain) = parts.next_part() else {
        return Err(Fault::Bad);
    };
    let plain = plain.to_vec(alloc)?;
    read_escapes(&mut parts, plain)
}

/// Reads the text of a cell.
#[tactic(auto, unfolding(crate::specs::Texts::text_of))]
pub fn cell_text(alloc: Global, word: &[u8]) -> Result<Text, Fault>
    ensures { Reads (text_of word.now) result }
{
    let bytes = unescaped_bytes(alloc, word)?;
    utf8(alloc, &bytes)
}
