ghost use Rattle.std.specs.Prelude.{◌≡◌, ◌++◌, pos, ◌≤ℤ◌, unsigned_abs, IsTrue, IfOk, IfErr};
ghost use Rattle.std.specs.String.{string_bytes};
ghost use Rattle.dbl_value_types.specs.ByteTexts.{bytes_text};
ghost use Rattle.dbl_time.specs.Dates.{IsInYears, date_text};
ghost use Rattle.dbl_time.specs.Clocks.{day_micros, clock_text};
ghost use Rattle.dbl_time.specs.Stamps.{is_instant, stamp_text};
ghost use Rattle.dbl_value_types.specs.Values.{IsOf, text_of};

use dbl_base::Text;
use dbl_time::{push_date, push_time, push_timestamp};
use dbl_value_types::{PgType, Val, ValueError};
use std::alloc::{AllocError, Global};

fn bytes_string(alloc: Global, bytes: &[u8]) -> Result<String, AllocError>
    ensures { IfOk result (λ text. string_bytes text ≡ bytes_text bytes.now) }
{
    let digits = hex::encode(alloc, bytes)?;
    let mut text = String::from_str(alloc, "\\x")?;
    text.push_str(digits.as_str())?;
    Ok(text)
}

fn truth_string(alloc: Global, truth: bool) -> Result<String, AllocError>
    ensures { IfOk result (λ text. string_bytes text ≡ text_of (Val.Bool truth)) }
{
    String::from_str(alloc, if truth { "t" } else { "f" })
}

fn date_string(alloc: Global, day: &i32) -> Result<String, AllocError>
    requires { IsInYears day.now }
    ensures { IfOk result (λ text. string_bytes text ≡ date_text day.now) }
{
    let mut text = String::new(alloc);
    push_date(&mut text, day)?;
    Ok(text)
}

fn time_string(alloc: Global, micros: &i64) -> Result<String, AllocError>
    requires low { pos 0 ≤ℤ micros.now }
    requires high { micros.now ≤ℤ pos day_micros }
    ensures { IfOk result (λ text. string_bytes text ≡ clock_text (unsigned_abs micros.now)) }
{
    let mut text = String::new(alloc);
    push_time(&mut text, *micros as u64)?;
    Ok(text)
}

fn stamp_string(alloc: Global, moment: &i64) -> Result<String, AllocError>
    requires { IsTrue (is_instant moment.now) }
    ensures { IfOk result (λ text. string_bytes text ≡ stamp_text moment.now) }
{
    let mut text = String::new(alloc);
    push_timestamp(&mut text, moment)?;
    Ok(text)
}

fn instant_string(alloc: Global, instant: &i64) -> Result<String, AllocError>
    requires { IsTrue (is_instant instant.now) }
    ensures { IfOk result (λ text. string_bytes text ≡ text_of (Val.StampTz instant.now)) }
{
    let mut text = stamp_string(alloc, instant)?;
    text.push_str("+00")?;
    Ok(text)
}

/// The text that PostgreSQL sends for a value of a type; it parses as the value.
pub fn print(alloc: Global, ty: PgType, val: &Val) -> Result<Text, ValueError>
    requires is_of { IsOf ty val.now }
    ensures ok { IfOk result (λ text. text ≡ text_of val.now) }
    ensures err { IfErr result (λ e. e ≡ ValueError.Memory) }
{
    match val {
        Val::Null => Ok(Text::make(String::new(alloc))),
        Val::Bool(truth) => Ok(Text::make(truth_string(alloc, *truth)?)),
        Val::Int(number) => Ok(Text::make(format!(in alloc; "{number}")?)),
        Val::Text(text) => Ok(text.copy(alloc)?),
        Val::Bytes(bytes) => Ok(Text::make(bytes_string(alloc, bytes.items().as_slice())?)),
        Val::Date(day) => Ok(Text::make(date_string(alloc, day)?)),
        Val::Time(micros) => Ok(Text::make(time_string(alloc, micros)?)),
        Val::Stamp(moment) => Ok(Text::make(stamp_string(alloc, moment)?)),
        Val::StampTz(instant) => Ok(Text::make(instant_string(alloc, instant)?)),
    }
}
