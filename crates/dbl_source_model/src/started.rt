use dbl_base::Lsn;

/// The answer of a source to a request to begin reading after an LSN.
#[derive(Clone, Copy)]
pub enum Started {
    /// Reading begins with the first commit after it.
    Ready,
    /// The log after it isn't available any more. `first` is the first LSN after which reading can
    /// begin.
    Gone { first: Lsn },
}
