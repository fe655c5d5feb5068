//! Agreement and stored progress as records are appended and as the history grows.
ghost use Rattle.dbl_consume_courses.specs.StoreSteps.{AgreementGoesOn};
ghost use Rattle.dbl_consume_courses.specs.StoreSteps.{CursorsStayWithMoreRecords};
ghost use Rattle.dbl_consume_courses.specs.StoreSteps.{CursorsStayAtLaterPositions};
ghost use Rattle.dbl_consume_courses.specs.StoreSteps.{CursorsStayAsHistoriesGrow};
ghost use Rattle.dbl_consume_courses.specs.StoreSteps.{ReportsAreCursors};

/// Agreement at first delivery goes on with more records of an aged log.
pub fn agreement_goes_on()
    ensures { AgreementGoesOn }
{}

/// Stored progress stays right with more records that don't lie before it.
pub fn cursors_stay_with_more_records()
    ensures { CursorsStayWithMoreRecords }
{}

/// Stored progress stays right at a later position.
pub fn cursors_stay_at_later_positions()
    ensures { CursorsStayAtLaterPositions }
{}

/// Stored progress stays right in a longer history.
pub fn cursors_stay_as_histories_grow()
    ensures { CursorsStayAsHistoriesGrow }
{}

/// An appended progress record is a table's progress at its position.
pub fn reports_are_cursors()
    ensures { ReportsAreCursors }
{}
