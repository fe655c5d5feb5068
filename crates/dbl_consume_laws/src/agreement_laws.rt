ghost use Rattle.dbl_consume_laws.specs.Laws.{LinesAreRead, SnapshotLinesAreRead};
ghost use Rattle.dbl_consume_laws.specs.Laws.{ConsumersHoldImages, ImagesStand};
ghost use Rattle.dbl_consume_laws.specs.Laws.{ConsumersHoldNoOtherRows};

/// The line of each record of a commit is read back as that record.
pub fn lines_are_read()
    ensures { LinesAreRead }
{}

/// The line of each record of a snapshot's window is read back as that record.
pub fn snapshot_lines_are_read()
    ensures { SnapshotLinesAreRead }
{}

/// A consumer of all records of a valid history has the image of the last rows.
pub fn consumers_hold_images()
    ensures { ConsumersHoldImages }
{}

/// There is an image of the last rows at each topic and key text.
pub fn images_stand()
    ensures { ImagesStand }
{}

/// Each row of such a consumer is of a captured table and a key.
pub fn consumers_hold_no_other_rows()
    ensures { ConsumersHoldNoOtherRows }
{}
