//! Theorem: the effect of a line writer on its output.
ghost use Rattle.dbl_lines.specs.Gathering.{TextIsTold};

/// The text written and the text buffered are together the text of the lines added.
pub fn text_is_told()
    ensures { TextIsTold }
{}
