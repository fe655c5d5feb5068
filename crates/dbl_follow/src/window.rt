use dbl_window::{Armed, Open};

// The window that waits for a watermark, if there is one.
#[derive(Drop)]
pub(crate) enum Window {
    Absent,
    Armed(Armed),
    Open(Open),
}
