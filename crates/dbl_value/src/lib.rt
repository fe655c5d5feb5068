//! Column types and their values: parsed from the texts that PostgreSQL sends, printed, and encoded
//! as JSON.
#![tactic(auto)]

mod encoding;
mod faults;
mod integers;
mod laws;
mod printing;
mod reading;
mod tree;

pub use dbl_value_types::{PgType, Val, ValueError, of, oid};
pub use encoding::{json, write_json};
pub use laws::{
    byte_texts_are_hex, date_ranges_spell_no_value, date_texts_are_days, days_are_dates,
    decimals_spell_integers, instant_texts_are_instants, json_tells_cells, kinds_are_in_order,
    oids_name_types, stamp_texts_are_moments, texts_read_back, texts_spell_one_value,
    time_texts_are_clocks, uuid_texts_are_groups, values_are_ordered,
};
pub use printing::print;
pub use reading::{read, read_owned};
pub use tree::json_tree;
