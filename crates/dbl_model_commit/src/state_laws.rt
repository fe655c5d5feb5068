//! Theorems about the commits that messages state, as contracts of empty functions.

ghost use Rattle.std.specs.Prelude.{List};
ghost use Rattle.dbl_model_table.specs.declared.table.TableInfo.{TableInfo};
ghost use Rattle.dbl_model_commit.specs.Blocks.{BlocksStateOneList, RestsAreOne, RestsAreOpen};
ghost use Rattle.dbl_model_commit.specs.Blocks.{AcceptedAreBlocks, FaultlessAreBlocks};
ghost use Rattle.dbl_model_commit.specs.Blocks.{LaterTablesChangeNothing};
ghost use Rattle.dbl_model_commit.specs.StatedFits.{StatedChangesFit};

/// Every division of messages into transactions states one list of commits: the one found by
/// looking back.
pub fn blocks_state_one_list()
    ensures { BlocksStateOneList }
{}

/// Every division of messages into transactions leaves the same unfinished transaction, or none.
pub fn rests_are_one()
    ensures { RestsAreOne }
{}

/// A transaction is open if and only if the messages end in an unfinished one.
pub fn rests_are_open()
    ensures { RestsAreOpen }
{}

/// Messages without an error are transactions, messages between them, and an unfinished transaction
/// or nothing.
pub fn accepted_are_blocks()
    ensures { AcceptedAreBlocks }
{}

/// Messages in order, each without an error after those before it, are transactions, messages
/// between them, and an unfinished transaction or nothing.
pub fn faultless_are_blocks()
    ensures { FaultlessAreBlocks }
{}

/// Capturing a table from its first Relation on changes nothing of what earlier messages state.
pub fn later_tables_change_nothing()
    ensures { (infos : List TableInfo) (info : TableInfo) → LaterTablesChangeNothing infos info }
{}

/// The changes of the commits that messages state match the captured tables if the messages' texts
/// are UTF-8.
pub fn stated_changes_fit()
    ensures { StatedChangesFit }
{}
