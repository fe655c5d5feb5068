ghost use Rattle.dbl_model_event.specs.EventLaws.{CommitsAreNumbered, SmallInsertsAre};
ghost use Rattle.dbl_model_event.specs.EventLaws.{TimesAreRoundedDown};

/// The records of a commit are numbered from 0, and only the last is marked as the last.
pub fn commits_are_numbered()
    ensures { CommitsAreNumbered }
{}

/// An insert of a row with a number and a text has one record, with this JSON.
pub fn small_inserts_are()
    ensures { SmallInsertsAre }
{}

/// A time between two milliseconds is rounded down to the earlier one.
pub fn times_are_rounded_down()
    ensures { TimesAreRoundedDown }
{}
