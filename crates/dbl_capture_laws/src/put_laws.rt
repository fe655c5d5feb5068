//! What the sink gains, and what is left of it: theorems, as contracts of empty functions.

ghost use Rattle.dbl_capture_laws.specs.Puts.{CommitsGain, GainsBegin, GainsStay};
ghost use Rattle.dbl_capture_laws.specs.Puts.{MessagesGainNothing, RestsLeaveGains};
ghost use Rattle.dbl_capture_laws.specs.Puts.{OpensAreCounted, OpensLeaveGains};
ghost use Rattle.dbl_capture_laws.specs.Puts.{StepsAreCounted, StepsLeaveGains};

/// A session begins with nothing gained.
pub fn gains_begin()
    ensures { GainsBegin }
{}

/// Reading a window and storing an offset gain nothing.
pub fn gains_stay()
    ensures { GainsStay }
{}

/// A message that ends no commit gains nothing.
pub fn messages_gain_nothing()
    ensures { MessagesGainNothing }
{}

/// A commit that is followed gains its records, and they are counted.
pub fn commits_gain()
    ensures { CommitsGain }
{}

/// The sink's gain between two messages is a gain by the stored offset.
pub fn rests_leave_gains()
    ensures { RestsLeaveGains }
{}

/// The sink's gain within an open transaction is a gain by the stored offset.
pub fn opens_leave_gains()
    ensures { OpensLeaveGains }
{}

/// The sink's gain within a commit is a gain by the stored offset.
pub fn steps_leave_gains()
    ensures { StepsLeaveGains }
{}

/// The appended prefix of a commit's records is counted.
pub fn steps_are_counted()
    ensures { StepsAreCounted }
{}

/// The appended prefix of an open transaction's records is counted.
pub fn opens_are_counted()
    ensures { OpensAreCounted }
{}
