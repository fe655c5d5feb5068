use dbl_base::Seq;
use dbl_model_table::Cell;
use dbl_value::Val;

/// The contents of an event's `before` or `after`.
#[derive(Clone, Copy)]
pub enum Side<'a> {
    Nothing,
    Row(&'a Seq<Val>),
    /// The cells of an update, some of which may be unsent.
    Sent(&'a Seq<Cell>),
}
