//! The steps of a session keep its invariant: theorems, as contracts of empty functions.

ghost use Rattle.dbl_capture_model.specs.Steps.{SessionsBegin, OthersKeepGoing, ConfirmsKeepGoing};
ghost use Rattle.dbl_capture_model.specs.Steps.{MessagesKeepGoing, WindowsKeepGoing};
ghost use Rattle.dbl_capture_model.specs.Steps.{CommitsKeepGoing, StoresKeepGoing};

/// A session's invariant is true when it begins.
pub fn sessions_begin()
    ensures { SessionsBegin }
{}

/// Commits of others keep a session's invariant.
pub fn others_keep_going()
    ensures { OthersKeepGoing }
{}

/// Confirming a stored position keeps a session's invariant.
pub fn confirms_keep_going()
    ensures { ConfirmsKeepGoing }
{}

/// Reading a message that ends no commit keeps a session's invariant.
pub fn messages_keep_going()
    ensures { MessagesKeepGoing }
{}

/// Reading a window between its watermarks keeps a session's invariant.
pub fn windows_keep_going()
    ensures { WindowsKeepGoing }
{}

/// Appending the records of a commit keeps a session's invariant.
pub fn commits_keep_going()
    ensures { CommitsKeepGoing }
{}

/// Storing the next offset keeps a session's invariant.
pub fn stores_keep_going()
    ensures { StoresKeepGoing }
{}
