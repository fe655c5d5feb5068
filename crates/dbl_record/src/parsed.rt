ghost use Rattle.std.specs.Prelude.{◌≡◌, is_some, true};
ghost use Rattle.serde_json.specs.Find.{as_null};
ghost use Rattle.serde_json.specs.View.{view};

use dbl_base::Text;
use serde_json::Value;

/// A parsed record line.
#[derive(Drop)]
pub struct ParsedLine {
    pub(crate) topic: Text,
    pub(crate) whole: Value,
    // The value of an absent member.
    pub(crate) absent: Value,
    ghost no_value: { is_some (as_null (view absent)) ≡ true },
}
