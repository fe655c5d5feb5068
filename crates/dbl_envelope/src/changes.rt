ghost use Rattle.std.specs.Prelude.{◌≡◌};
ghost use Rattle.dbl_model_table.specs.Rows.{changes_of};

use dbl_model_table::{Body, Change, Commit};

pub(crate) fn changes(commit: &Commit) -> &[Change]
    ensures { result.now ≡ changes_of commit.now }
{
    match &commit.body {
        Body::Changes(changes) => changes.items().as_slice(),
        Body::Mark(_) => &[],
    }
}
