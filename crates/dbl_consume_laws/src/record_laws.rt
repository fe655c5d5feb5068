//! The effect of one record on a consumer, and what it reports.
ghost use Rattle.dbl_consume_laws.specs.Cells.{CellsGoAlone, ConsumersHoldCells, EventsChangeCells};
ghost use Rattle.dbl_consume_laws.specs.Snapshots.{ReadRowsAreHeld, ReadRowsLeaveOthers};
ghost use Rattle.dbl_consume_laws.specs.Snapshots.{ReadRowsChangeCells, ProgressChangesNothing};
ghost use Rattle.dbl_consume_laws.specs.Snapshots.{ProgressChangesNoCell};
ghost use Rattle.dbl_consume_laws.specs.Clashes.{FitChangesAreWide, FittingChangesAreWide};
ghost use Rattle.dbl_consume_laws.specs.Clashes.{CommitsLackPlaceholders};
ghost use Rattle.dbl_consume_laws.specs.Clashes.{HistoriesLackPlaceholders};
ghost use Rattle.dbl_consume_laws.specs.Clashes.{SnapshotsLackPlaceholders};
ghost use Rattle.dbl_consume_laws.specs.Effects.{ChangesChangeCells};
ghost use Rattle.dbl_consume_laws.specs.Letters.{EventsHaveLetters, ReadRowsHaveTheirLetter};
ghost use Rattle.dbl_consume_laws.specs.Prints.{PairsNameEvents, RecordsTellOneEvent};
ghost use Rattle.dbl_consume_laws.specs.Prints.{ProgressRecordsTell, TableTopicsTellNone};
ghost use Rattle.dbl_consume_laws.specs.Prints.{ProgressIsReadOnce};

/// A cell after a record depends only on the record and on the cell before.
pub fn cells_go_alone()
    ensures { CellsGoAlone }
{}

/// A consumer's cell is the result of its records, one by one.
pub fn consumers_hold_cells()
    ensures { ConsumersHoldCells }
{}

/// The records of a commit have the effect of its events on each cell.
pub fn events_change_cells()
    ensures { EventsChangeCells }
{}

/// The events of a valid change have the effect of the change on each cell.
pub fn changes_change_cells()
    ensures { ChangesChangeCells }
{}

/// A consumer has a snapshot's row at its topic and key.
pub fn read_rows_are_held()
    ensures { ReadRowsAreHeld }
{}

/// A snapshot's row changes nothing at other topics and key texts.
pub fn read_rows_leave_others()
    ensures { ReadRowsLeaveOthers }
{}

/// A snapshot's row has the effect on each cell of an event that creates the row.
pub fn read_rows_change_cells()
    ensures { ReadRowsChangeCells }
{}

/// A progress record changes no row of a consumer.
pub fn progress_changes_nothing()
    ensures { ProgressChangesNothing }
{}

/// A progress record changes no cell of a consumer.
pub fn progress_changes_no_cell()
    ensures { ProgressChangesNoCell }
{}

/// The new cells of a valid change are one per column.
pub fn fit_changes_are_wide()
    ensures { FitChangesAreWide }
{}

/// The new cells of a change of a captured table are one per column.
pub fn fitting_changes_are_wide()
    ensures { FittingChangesAreWide }
{}

/// Changes of a commit free of the placeholder set no cell to it.
pub fn commits_lack_placeholders()
    ensures { CommitsLackPlaceholders }
{}

/// Changes of commits free of the placeholder set no cell to it.
pub fn histories_lack_placeholders()
    ensures { HistoriesLackPlaceholders }
{}

/// Rows of a snapshot free of the placeholder have no cell equal to it.
pub fn snapshots_lack_placeholders()
    ensures { SnapshotsLackPlaceholders }
{}

/// Position and ordinal identify at most one event of a history.
pub fn pairs_name_events()
    ensures { PairsNameEvents }
{}

/// A record encodes at most one event of a history.
pub fn records_tell_one_event()
    ensures { RecordsTellOneEvent }
{}

/// The records of a commit have the letters of its events: c, u, d and t.
pub fn events_have_letters()
    ensures { EventsHaveLetters }
{}

/// A snapshot's row has the letter r.
pub fn read_rows_have_their_letter()
    ensures { ReadRowsHaveTheirLetter }
{}

/// The progress record of a table reports its snapshot's progress.
pub fn progress_records_tell()
    ensures { ProgressRecordsTell }
{}

/// A record in the topic of a table reports no progress.
pub fn table_topics_tell_none()
    ensures { TableTopicsTellNone }
{}

/// A record reports the progress of at most one table, with one key and one flag.
pub fn progress_is_read_once()
    ensures { ProgressIsReadOnce }
{}
