//! Tables in the columns of the log's Relations.
ghost use Rattle.dbl_model_commit.specs.Shapes.{SameColumnsReadAlike};
ghost use Rattle.dbl_model_commit.specs.Shapes.{UnchangedTablesMayBeReshaped};

/// In a Relation of the table's own columns a table is as it is captured.
pub fn same_columns_read_alike()
    ensures { SameColumnsReadAlike }
{}

/// Of a captured table that the open transaction doesn't change so far, other columns change
/// nothing of what it states.
pub fn unchanged_tables_may_be_reshaped()
    ensures { UnchangedTablesMayBeReshaped }
{}
