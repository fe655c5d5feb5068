ghost use Rattle.std.specs.Prelude.{◌≡◌, ◌≢◌, ◌⊎◌, Bool, true, Some, None, IfOk, IfErr, nat_eq};
ghost use Rattle.std.specs.List.{list_all, starts_with};
ghost use Rattle.dbl_time.specs.Shapes.{is_lower_hex};
ghost use Rattle.dbl_value_types.specs.ByteTexts.{bytes_of};
ghost use Rattle.dbl_value_types.specs.Values.{value_of, truth_of, is_uuid, SpellsValue};
ghost use Rattle.dbl_value_types.specs.Faults.{value_fault};
ghost use Rattle.dbl_value_types.specs.Kinds.{is_fixed};

use crate::faults::fault;
use crate::integers::{int2, int4, int8};
use dbl_base::{Seq, Text};
use dbl_time::{
    bytes_from, is_in_years, is_lower_hex_digit, is_shaped, parse_date, parse_instant, parse_time,
    parse_timestamp,
};
use dbl_value_types::{PgType, Val, ValueError};
use hex::FromHexError;
use std::alloc::{AllocError, Global};

fn truth_value(text: &str) -> Option<Val>
    ensures { result ≡ value_of PgType.Bool text.now }
{
    match text {
        "t" => Some(Val::Bool(true)),
        "f" => Some(Val::Bool(false)),
        _ => None,
    }
}

fn int2_value(text: &str) -> Option<Val>
    ensures { result ≡ value_of PgType.Int2 text.now }
{
    match int2(text) {
        Some(number) => Some(Val::Int(number as i64)),
        None => None,
    }
}

fn int4_value(text: &str) -> Option<Val>
    ensures { result ≡ value_of PgType.Int4 text.now }
{
    match int4(text) {
        Some(number) => Some(Val::Int(number as i64)),
        None => None,
    }
}

fn int8_value(text: &str) -> Option<Val>
    ensures { result ≡ value_of PgType.Int8 text.now }
{
    match int8(text) {
        Some(number) => Some(Val::Int(number)),
        None => None,
    }
}

fn date_value(text: &str) -> Option<Val>
    ensures { result ≡ value_of PgType.Date text.now }
{
    match parse_date(text.as_bytes()) {
        Some(day) => Some(Val::Date(day)),
        None => None,
    }
}

fn time_value(text: &str) -> Option<Val>
    ensures { result ≡ value_of PgType.Time text.now }
{
    match parse_time(text.as_bytes()) {
        Some(micros) => Some(Val::Time(micros as i64)),
        None => None,
    }
}

fn stamp_value(text: &str) -> Option<Val>
    ensures { result ≡ value_of PgType.Timestamp text.now }
{
    match parse_timestamp(text.as_bytes()) {
        Some(moment) => Some(Val::Stamp(moment)),
        None => None,
    }
}

fn instant_value(text: &str) -> Option<Val>
    ensures { result ≡ value_of PgType.Timestamptz text.now }
{
    match parse_instant(text.as_bytes()) {
        Some(instant) if is_in_years(&instant) => Some(Val::StampTz(instant)),
        _ => None,
    }
}

fn is_uuid_text(text: &str) -> bool
    ensures { result ≡ is_uuid text.now }
{
    is_shaped(b"xxxxxxxx-xxxx-xxxx-xxxx-xxxxxxxxxxxx", text.as_bytes())
}

fn are_lower_hex_digits(digits: &[u8]) -> bool
    ensures { result ≡ list_all is_lower_hex digits.now }
{
    digits.iter().all(|byte| is_lower_hex_digit(*byte))
}

/// The bytes of a text in PostgreSQL's hex format, in lower case.
#[tactic(auto, unfolding(dbl_value_types::specs::ByteTexts::bytes_of))]
fn bytes_value(alloc: Global, text: &str) -> Result<Option<Val>, AllocError>
    ensures { IfOk result (λ o. o ≡ value_of PgType.Bytea text.now) }
{
    let text = text.as_bytes();
    if !text.starts_with(b"\\x") {
        return Ok(None);
    }
    let digits = bytes_from(text, 2);
    if !are_lower_hex_digits(digits) {
        return Ok(None);
    }
    match hex::decode(alloc, digits) {
        Ok(bytes) => Ok(Some(Val::Bytes(Seq::make(bytes)))),
        Err(FromHexError::OutOfMemory) => Err(AllocError),
        Err(_) => Ok(None),
    }
}

/// Parses a value of a type whose values take no memory.
fn fixed_value(ty: PgType, text: &str) -> Option<Val>
    requires { is_fixed ty ≡ true }
    ensures { result ≡ value_of ty text.now }
{
    match ty {
        PgType::Bool => truth_value(text),
        PgType::Int2 => int2_value(text),
        PgType::Int4 => int4_value(text),
        PgType::Int8 => int8_value(text),
        PgType::Date => date_value(text),
        PgType::Time => time_value(text),
        PgType::Timestamp => stamp_value(text),
        PgType::Timestamptz => instant_value(text),
        _ => unreachable!(),
    }
}

fn has_no_memory(ty: PgType) -> bool
    ensures { result ≡ is_fixed ty }
{
    match ty {
        PgType::Bool
        | PgType::Int2
        | PgType::Int4
        | PgType::Int8
        | PgType::Date
        | PgType::Time
        | PgType::Timestamp
        | PgType::Timestamptz => true,
        _ => false,
    }
}

/// Parses the value, if the text is one of the type.
fn parse_value(alloc: Global, ty: PgType, text: &Text) -> Result<Option<Val>, AllocError>
    ensures value { IfOk result (λ o. o ≡ value_of ty text.now) }
    ensures fixed { is_fixed ty ≡ true → result ≡ Ok (value_of ty text.now) }
{
    if has_no_memory(ty) {
        return Ok(fixed_value(ty, text.as_str()));
    }
    match ty {
        PgType::Bytea => bytes_value(alloc, text.as_str()),
        PgType::Uuid if !is_uuid_text(text.as_str()) => Ok(None),
        _ => Ok(Some(Val::Text(text.copy(alloc)?))),
    }
}

/// Parses a value. Texts, uuids and byte strings take memory for their contents; other values take
/// none.
pub fn read(alloc: Global, ty: PgType, text: &Text) -> Result<Val, ValueError>
    ensures value { IfOk result (SpellsValue ty text.now) }
    ensures fault { IfErr result
        (λ e. (e ≡ ValueError.Memory) ⊎ (value_fault ty text.now ≡ Some e)) }
    ensures fixed { is_fixed ty ≡ true → result ≢ Err ValueError.Memory }
{
    match parse_value(alloc, ty, text) {
        Ok(Some(val)) => Ok(val),
        Ok(None) => Err(fault(ty, text.as_str())),
        Err(_) => Err(ValueError::Memory),
    }
}

/// Parses a value from an owned text, which moves into the value if that is a text; only byte
/// strings take memory.
pub fn read_owned(alloc: Global, ty: PgType, text: Text) -> Result<Val, ValueError>
    ensures value { IfOk result (SpellsValue ty text) }
    ensures fault { IfErr result (λ e. (e ≡ ValueError.Memory) ⊎ (value_fault ty text ≡ Some e)) }
    ensures memory { ty ≢ PgType.Bytea → result ≢ Err ValueError.Memory }
{
    if has_no_memory(ty) || ty == PgType::Bytea {
        return read(alloc, ty, &text);
    }
    if ty == PgType::Uuid && !is_uuid_text(text.as_str()) {
        return Err(ValueError::BadText);
    }
    Ok(Val::Text(text))
}
