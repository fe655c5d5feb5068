//! A value as a JSON tree of `serde_json`.

ghost use Rattle.std.specs.Prelude.{◌≡◌, IfOk};
ghost use Rattle.serde_json.specs.View.{view};
ghost use Rattle.dbl_value_types.specs.Values.{json_data};

use base64::engine::general_purpose::STANDARD;
use dbl_base::Bytes;
use dbl_time::{is_in_years, push_zulu};
use dbl_value_types::Val;
use serde_json::Value;
use std::alloc::{AllocError, Global};

fn bytes_tree(alloc: Global, bytes: &Bytes) -> Result<Value, AllocError>
    ensures { IfOk result (λ tree. view tree ≡ json_data (Val.Bytes bytes.now)) }
{
    Ok(Value::String(STANDARD.encode(alloc, bytes.items().as_slice())?))
}

fn instant_tree(alloc: Global, instant: &i64) -> Result<Value, AllocError>
    ensures { IfOk result (λ tree. view tree ≡ json_data (Val.StampTz instant.now)) }
{
    if !is_in_years(instant) {
        return Ok(Value::from(*instant));
    }
    let mut text = String::new(alloc);
    push_zulu(&mut text, instant)?;
    Ok(Value::String(text))
}

/// A value as a JSON tree.
pub fn json_tree(alloc: Global, val: &Val) -> Result<Value, AllocError>
    ensures { IfOk result (λ tree. view tree ≡ json_data val.now) }
{
    match val {
        Val::Null => Ok(Value::Null),
        Val::Bool(truth) => Ok(Value::Bool(*truth)),
        Val::Int(number) => Ok(Value::from(*number)),
        Val::Text(text) => Value::try_from_str(alloc, text.as_str()),
        Val::Bytes(bytes) => bytes_tree(alloc, bytes),
        Val::Date(day) => Ok(Value::from(*day as i64)),
        Val::Time(micros) => Ok(Value::from(*micros)),
        Val::Stamp(moment) => Ok(Value::from(*moment)),
        Val::StampTz(instant) => instant_tree(alloc, instant),
    }
}
