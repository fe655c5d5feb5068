//! A session's state is ready after each step: theorems, as contracts of empty functions.

ghost use Rattle.dbl_capture_laws.specs.Laws.{CommitsLeaveItReady, MessagesLeaveItReady};
ghost use Rattle.dbl_capture_laws.specs.Laws.{PartsLeaveItReady, StoresLeaveItReady};
ghost use Rattle.dbl_capture_laws.specs.Laws.{WindowsLeaveItReady};

/// A session that has read a window is ready.
pub fn windows_leave_it_ready()
    ensures { WindowsLeaveItReady }
{}

/// A session that has taken a message without changes that ends no commit is ready.
pub fn messages_leave_it_ready()
    ensures { MessagesLeaveItReady }
{}

/// A session that has followed changes of the open transaction is ready.
pub fn parts_leave_it_ready()
    ensures { PartsLeaveItReady }
{}

/// A session that has followed a commit is ready.
pub fn commits_leave_it_ready()
    ensures { CommitsLeaveItReady }
{}

/// A session that has stored an offset is ready.
pub fn stores_leave_it_ready()
    ensures { StoresLeaveItReady }
{}
