use dbl_journal::JournalError;
use dbl_model_table::ModelError;
use dbl_script::ScriptError;
use std::alloc::{AllocError, AllocFailed};
use thiserror::Error;

/// Why a workload or a log of one isn't accepted.
#[derive(Debug, Drop, Error)]
pub enum DemoError {
    /// The disk failed, or its bytes are no journal.
    #[error("{0}")]
    Journal(JournalError),
    /// The bytes are no workload. The line of a row that can't be inserted is a bad line too.
    #[error("{0}")]
    Script(ScriptError),
    /// The first table, by its line, that can't be captured.
    #[error("{0}")]
    Model(ModelError),
    /// The number, counted from 0, of the first entry that is wrong or missing.
    #[error("bad entry {index}")]
    BadEntry { index: u64 },
    #[error("out of memory")]
    Memory,
}

impl From<AllocError> for DemoError {
    ghost use Rattle.std.specs.Prelude.{◌≡◌};
    ghost use Rattle.dbl_demo_workload.specs.declared.error.DemoError.TheVariants.{Memory};

    ghost from_gives = { λ _ e. e ≡ Memory };

    fn from(_error: AllocError) -> DemoError {
        DemoError::Memory
    }
}

impl<T: Drop> From<AllocFailed<T>> for DemoError {
    ghost use Rattle.std.specs.Prelude.{◌≡◌};
    ghost use Rattle.dbl_demo_workload.specs.declared.error.DemoError.TheVariants.{Memory};

    ghost from_gives = { λ _ e. e ≡ Memory };

    fn from(_error: AllocFailed<T>) -> DemoError {
        DemoError::Memory
    }
}

impl From<JournalError> for DemoError {
    ghost use Rattle.std.specs.Prelude.{◌≡◌};
    ghost use Rattle.dbl_demo_workload.specs.Errors.{journal_error};

    ghost from_gives = { λ e f. f ≡ journal_error e };

    fn from(error: JournalError) -> DemoError {
        match error {
            JournalError::Memory => DemoError::Memory,
            _ => DemoError::Journal(error),
        }
    }
}

impl From<ScriptError> for DemoError {
    ghost use Rattle.std.specs.Prelude.{◌≡◌};
    ghost use Rattle.dbl_demo_workload.specs.Errors.{script_error};

    ghost from_gives = { λ e f. f ≡ script_error e };

    fn from(error: ScriptError) -> DemoError {
        match error {
            ScriptError::Memory => DemoError::Memory,
            _ => DemoError::Script(error),
        }
    }
}

impl From<ModelError> for DemoError {
    ghost use Rattle.std.specs.Prelude.{◌≡◌};
    ghost use Rattle.dbl_demo_workload.specs.Errors.{model_error};

    ghost from_gives = { λ e f. f ≡ model_error e };

    fn from(error: ModelError) -> DemoError {
        match error {
            ModelError::Memory => DemoError::Memory,
            error => DemoError::Model(error),
        }
    }
}
