//! Theorems on any number of sessions and crashes, as contracts of empty functions.

ghost use Rattle.dblog_promise.specs.Example.{ThreeSessionsStand};
ghost use Rattle.dblog_promise.specs.RestartLaws.{RulesKeepPromises, RestartsStayFaithful};
ghost use Rattle.dblog_promise.specs.RestartLaws.{FirstSessionsAreFaithful, RestartsGoOn};
ghost use Rattle.dblog_promise.specs.RestartLaws.{CompletedRestartsAreImages};
ghost use Rattle.dblog_promise.specs.Telling.{LogsTellTheSource};

/// Sessions that follow the rules keep the session's guarantees.
pub fn rules_keep_promises()
    ensures { RulesKeepPromises }
{}

/// Sessions that keep the guarantees leave faithful stores.
pub fn restarts_stay_faithful()
    ensures { RestartsStayFaithful }
{}

/// Sessions that follow the rules, from unused stores, leave faithful stores.
pub fn first_sessions_are_faithful()
    ensures { FirstSessionsAreFaithful }
{}

/// Sessions take nothing back and append only positions after the stored offset; the lag stays
/// bounded.
pub fn restarts_go_on()
    ensures { RestartsGoOn }
{}

/// The topic log agrees with the source, after any sessions that stopped anywhere.
pub fn logs_tell_the_source()
    ensures { LogsTellTheSource }
{}

/// A session that completes, after any other sessions, leaves the source's tables.
pub fn completed_restarts_are_images()
    ensures { CompletedRestartsAreImages }
{}

/// Sessions and crashes that follow the rules exist.
pub fn three_sessions_stand()
    ensures { ThreeSessionsStand }
{}
