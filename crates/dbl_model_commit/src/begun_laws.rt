//! Theorems about single messages, and about unfinished transactions, as contracts of empty
//! functions.

ghost use Rattle.dbl_model_commit.specs.StatedChanges.{StatedChangesFitOneByOne, OpenChangesFit};
ghost use Rattle.dbl_model_commit.specs.BegunCommits.{EndedCommitsWereBegun, BegunCommitsWereBegun};

/// The changes that a message states match the captured tables if its texts are UTF-8.
pub fn stated_changes_fit_one_by_one()
    ensures { StatedChangesFitOneByOne }
{}

/// The changes that an open transaction states so far match the captured tables if the messages'
/// texts are UTF-8.
pub fn open_changes_fit()
    ensures { OpenChangesFit }
{}

/// A transaction began the commit that it states at its end.
pub fn ended_commits_were_begun()
    ensures { EndedCommitsWereBegun }
{}

/// The commit that a transaction begins it also began at each of its earlier messages.
pub fn begun_commits_were_begun()
    ensures { BegunCommitsWereBegun }
{}
