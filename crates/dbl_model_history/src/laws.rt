ghost use Rattle.dbl_model_history.specs.Laws.{PositionsAreMoments, MomentsAreChanges};
ghost use Rattle.dbl_model_history.specs.Laws.{KeyTextsNameKeys, RowsHaveOneImage};
ghost use Rattle.dbl_model_history.specs.Laws.{FitRowsAreRows, TypedCommitsAreInRange};
ghost use Rattle.dbl_model_history.specs.Laws.{InfosAreInRange, FitChangesFitInfos};
ghost use Rattle.dbl_model_history.specs.InForce.{UnalteredEntriesStay, PlainVersionsAreTyped};

/// If LSNs rise, the LSN of a commit is the position of the point after it, and 0 that of the
/// history's start.
pub fn positions_are_moments()
    ensures { PositionsAreMoments }
{}

/// The rows after some commits and some changes of the next one are those after these changes, one
/// by one.
pub fn moments_are_changes()
    ensures { MomentsAreChanges }
{}

/// Different keys of a table have different JSON texts.
pub fn key_texts_name_keys()
    ensures { KeyTextsNameKeys }
{}

/// At a topic and a key's text the image of the rows of distinct tables has at most one value.
pub fn rows_have_one_image()
    ensures { RowsHaveOneImage }
{}

/// The rows of a valid history are rows of their tables, each at its own key.
pub fn fit_rows_are_rows()
    ensures { FitRowsAreRows }
{}

/// Commits that are typed from a history whose numbers and texts are in range are in range.
pub fn typed_commits_are_in_range()
    ensures { TypedCommitsAreInRange }
{}

/// The tables captured of a history in range are in range.
pub fn infos_are_in_range()
    ensures { InfosAreInRange }
{}

/// The changes of a valid history match the captured tables if their cells are readable.
pub fn fit_changes_fit_infos()
    ensures { FitChangesFitInfos }
{}

/// Without alterations the catalogue's entry of a table stays its first one.
pub fn unaltered_entries_stay()
    ensures { UnalteredEntriesStay }
{}

/// Without alterations the commits are those of the typed history, each with the captured tables.
pub fn plain_versions_are_typed()
    ensures { PlainVersionsAreTyped }
{}
