use dbl_capture_work::{Ending, Report};

/// How a session ended normally, and its report.
#[derive(Clone, Copy)]
pub struct Summary {
    pub ending: Ending,
    pub report: Report,
}
