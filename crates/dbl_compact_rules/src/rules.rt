ghost use Rattle.std.specs.Prelude.{◌≡◌, ◌&&◌, not};

/// Whether a record that sets a row is kept, and whether it ends the row for the records before it.
#[derive(Drop)]
pub struct SetRule {
    pub kept: bool,
    pub ends: bool,
}

/// Judges a record that sets a row, `whole` or in part, where later records have `ended` the row or
/// not. A row that is set in part still needs the records before it.
pub fn judge_set(ended: bool, whole: bool) -> SetRule
    ensures kept { result.kept ≡ not ended }
    ensures ends { result.ends ≡ (not ended && whole) }
{
    SetRule {
        kept: !ended,
        ends: !ended && whole,
    }
}
