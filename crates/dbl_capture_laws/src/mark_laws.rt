//! How many watermarks a session writes: theorems, as contracts of empty functions.

ghost use Rattle.dbl_capture_laws.specs.Written.{FewMarksAreLeft, MarksAreExact, ReadWindowsWait};
ghost use Rattle.dbl_capture_laws.specs.Written.{StepsCloseWindows};

/// After a window is read, the windows that were read are those that were closed and the one that
/// waits.
pub fn read_windows_wait()
    ensures { ReadWindowsWait }
{}

/// A report counts exactly the windows that commits close, while fewer than 2^64 were read.
pub fn steps_close_windows()
    ensures { StepsCloseWindows }
{}

/// A history that gained few watermarks after a session's last state has few of the session in all.
pub fn few_marks_are_left()
    ensures { FewMarksAreLeft }
{}

/// If no window is left to read, the windows and the stored cursors determine the number of
/// watermarks.
pub fn marks_are_exact()
    ensures { MarksAreExact }
{}
