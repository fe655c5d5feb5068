use dbl_base::InputError;
use dbl_demo::DemoError;
use dbl_journal::JournalError;
use dbl_model_table::ModelError;
use dbl_offset::OffsetError;
use dbl_script::ScriptError;
use dbl_topic::TopicError;
use std::alloc::AllocError;
use std::fmt;
use thiserror::Error;

/// A store of the program, each on a disk of its own.
#[derive(Clone, Copy, Debug)]
pub enum Store {
    Wal,
    Topics,
    Offsets,
}

impl fmt::Display for Store {
    ghost use Rattle.std.specs.Prelude.{Some};
    ghost use Rattle.dblog_init.specs.Errors.{store_name};

    ghost output = { λ store. Some (store_name store) };

    fn fmt<W: fmt::Write>(&self, f: &mut fmt::Formatter<W>) -> fmt::Result {
        match self {
            Store::Wal => f.write_str("wal"),
            Store::Topics => f.write_str("topics"),
            Store::Offsets => f.write_str("offsets"),
        }
    }
}

/// Why the stores weren't made.
#[derive(Debug, Drop, Error)]
pub enum InitError {
    /// A disk failed.
    #[error("{store} failed")]
    Failed { store: Store },
    /// The disk isn't empty.
    #[error("not empty: {store}")]
    NotEmpty { store: Store },
    #[error("input failed")]
    InputFailed,
    /// The input has more than 67,108,864 bytes.
    #[error("input too long")]
    InputTooLong,
    /// The bytes are no workload. The line of a row that can't be inserted is a bad line too.
    #[error("{0}")]
    Script(ScriptError),
    /// The first table, by its line, that can't be captured.
    #[error("{0}")]
    Model(ModelError),
    #[error("out of memory")]
    Memory,
}

impl From<AllocError> for InitError {
    ghost use Rattle.std.specs.Prelude.{◌≡◌};
    ghost use Rattle.dblog_init.specs.declared.error.InitError.TheVariants.{Memory};

    ghost from_gives = { λ _ e. e ≡ Memory };

    fn from(_error: AllocError) -> InitError {
        InitError::Memory
    }
}

impl From<InputError> for InitError {
    ghost use Rattle.std.specs.Prelude.{◌≡◌};
    ghost use Rattle.dblog_init.specs.Errors.{input_error};

    ghost from_gives = { λ e f. f ≡ input_error e };

    fn from(error: InputError) -> InitError {
        match error {
            InputError::Failed => InitError::InputFailed,
            InputError::TooLong => InitError::InputTooLong,
            InputError::Memory => InitError::Memory,
        }
    }
}

impl From<DemoError> for InitError {
    ghost use Rattle.std.specs.Prelude.{◌≡◌};
    ghost use Rattle.dblog_init.specs.Errors.{demo_error};

    ghost from_gives = { λ e f. f ≡ demo_error e };

    // Making a source has no other error.
    fn from(error: DemoError) -> InitError {
        match error {
            DemoError::Journal(JournalError::Failed) => InitError::Failed { store: Store::Wal },
            DemoError::Script(error) => InitError::Script(error),
            DemoError::Model(error) => InitError::Model(error),
            DemoError::Journal(_) | DemoError::BadEntry { .. } | DemoError::Memory => {
                InitError::Memory
            }
        }
    }
}

impl From<TopicError> for InitError {
    ghost use Rattle.std.specs.Prelude.{◌≡◌};
    ghost use Rattle.dblog_init.specs.Errors.{topic_error};

    ghost from_gives = { λ e f. f ≡ topic_error e };

    // Making a topic log has no other error.
    fn from(error: TopicError) -> InitError {
        match error {
            TopicError::Journal(JournalError::Failed) => InitError::Failed {
                store: Store::Topics,
            },
            _ => InitError::Memory,
        }
    }
}

impl From<OffsetError> for InitError {
    ghost use Rattle.std.specs.Prelude.{◌≡◌};
    ghost use Rattle.dblog_init.specs.Errors.{offset_error};

    ghost from_gives = { λ e f. f ≡ offset_error e };

    // Making an offset store has no other error.
    fn from(error: OffsetError) -> InitError {
        match error {
            OffsetError::Failed => InitError::Failed {
                store: Store::Offsets,
            },
            _ => InitError::Memory,
        }
    }
}
