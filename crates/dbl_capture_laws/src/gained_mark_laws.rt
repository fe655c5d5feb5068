//! How many watermarks a session may leave at any end: theorems, as contracts of empty functions.

ghost use Rattle.dbl_capture_laws.specs.Marks.{EndsLeaveExactMarks, OthersAddNoMarks};
ghost use Rattle.dbl_capture_laws.specs.Marks.{OthersLeaveFewMarks, WindowsLeaveFewMarks};

/// Commits of others add no watermark of the session.
pub fn others_add_no_marks()
    ensures { OthersAddNoMarks }
{}

/// At most two watermarks are left for each window that was closed, and two more.
pub fn others_leave_few_marks()
    ensures { OthersLeaveFewMarks }
{}

/// A stop within a window leaves at most two watermarks for each closed window, and two more.
pub fn windows_leave_few_marks()
    ensures { WindowsLeaveFewMarks }
{}

/// A session that has stored its cursors, and has no window left to read, leaves exactly the
/// reported watermarks.
pub fn ends_leave_exact_marks()
    ensures { EndsLeaveExactMarks }
{}
