//! Dates, times of day, timestamps and instants: parsed from the texts that PostgreSQL sends, and
//! printed.
#![tactic(auto)]

mod clocks;
mod dates;
mod shapes;
mod stamps;

pub use clocks::{parse_time, push_time};
pub use dates::{parse_date, push_date};
pub use shapes::{are_digits, byte_at, bytes_from, is_lower_hex_digit, is_shaped};
pub use stamps::{is_in_years, parse_instant, parse_timestamp, push_timestamp, push_zulu};
