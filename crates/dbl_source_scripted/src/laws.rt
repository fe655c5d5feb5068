//! Theorems about when a played source conforms, as contracts of empty functions.

ghost use Rattle.std.specs.Prelude.{◌↔◌};
ghost use Rattle.dbl_source_scripted.specs.Played.{Played};
ghost use Rattle.dbl_source_scripted.specs.Steps.{WasFair};
ghost use Rattle.dbl_source_scripted.specs.Laws.{FairScriptsConform, NewSourcesAreFair};
ghost use Rattle.dbl_source_scripted.specs.Laws.{FirstCommitsAreFair, MarksKeepFair};
ghost use Rattle.dbl_source_scripted.specs.Laws.{CommitsKeepFair, SelectsKeepFair, SelectsHaveReturned};
ghost use Rattle.dbl_source_scripted.specs.FairExample.{FairSourcesStand};

use crate::{ScriptedSource, Source};

/// A played source conforms if and only if its script was fair so far: then its history is valid,
/// the messages read state it, and each select answered the rows of one position.
pub fn fair_scripts_are_honest()
    ensures honest { (source : Played) →
        ⟦<ScriptedSource as Source>⟧.honest source ↔ WasFair source }
    ensures conform { FairScriptsConform }
{}

/// A played source before its first call was fair so far.
pub fn new_sources_are_fair()
    ensures { NewSourcesAreFair }
{}

/// If memory runs out in a call, a source that all its commits would keep fair is fair with the
/// first ones.
pub fn first_commits_are_fair()
    ensures { FirstCommitsAreFair }
{}

/// A watermark of UTF-8 text keeps a played source fair, if its history has room for it.
pub fn marks_keep_fair()
    ensures { MarksKeepFair }
{}

/// Other clients' commits that are such as a server sends keep a played source fair, if its history
/// stays valid.
pub fn commits_keep_fair()
    ensures { CommitsKeepFair }
{}

/// A select keeps a played source fair, if its rows are of one position between its call and its
/// return, the commits inside of it are such as a server sends, and the history stays valid.
pub fn selects_keep_fair()
    ensures { SelectsKeepFair }
{}

/// Each select of a played source has returned.
pub fn selects_have_returned()
    ensures { SelectsHaveReturned }
{}

/// An example: a played source is fair for each position of its select, and isn't with rows of an
/// earlier position.
pub fn fair_sources_stand()
    ensures { FairSourcesStand }
{}
