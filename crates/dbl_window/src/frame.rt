ghost use Rattle.std.specs.Prelude.{◌≡◌};
ghost use Rattle.std.specs.Option.{option_copied};

use dbl_model_table::{Key, TableInfo};
use std::alloc::Global;

// The plan of a window and the numbers of its watermarks. Every state of the window has one.
#[derive(Drop)]
pub(crate) struct Frame {
    pub alloc: Global,
    pub info: TableInfo,
    // the table's index among the captured ones
    pub table: u32,
    // the key after which the window begins
    pub above: Option<Key>,
    pub limit: u32,
    pub incarnation: u64,
    pub number: u64,
    // the version of the table that `info` describes
    pub version: u64,
}

impl Frame {
    pub(crate) fn bound(&self) -> Option<&Key>
        ensures { option_copied result ≡ self.now.above }
    {
        match &self.above {
            Some(key) => Some(key),
            None => None,
        }
    }
}
