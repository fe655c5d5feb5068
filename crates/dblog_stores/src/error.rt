ghost use Rattle.std.specs.Prelude.{◌≡◌, ◌∷◌, [], IfOk};
ghost use Rattle.std.specs.String.{string_bytes};
ghost use Rattle.dbl_base.specs.Lines.{lines_text};
ghost use Rattle.dblog_stores.specs.Errors.{error_line, error_status};

use dbl_journal::JournalError;
use dbl_lines::{PrintError, Status};
use dbl_offset::OffsetError;
use dbl_topic::TopicError;
use std::alloc::{AllocError, Global};
use std::fmt;
use thiserror::Error;

/// A store of the program, each on a disk of its own.
#[derive(Clone, Copy, Debug)]
pub enum Store {
    Topics,
    Offsets,
}

impl fmt::Display for Store {
    ghost use Rattle.std.specs.Prelude.{Some};
    ghost use Rattle.dblog_stores.specs.Errors.{store_name};

    ghost output = { λ store. Some (store_name store) };

    fn fmt<W: fmt::Write>(&self, f: &mut fmt::Formatter<W>) -> fmt::Result {
        match self {
            Store::Topics => f.write_str("topics"),
            Store::Offsets => f.write_str("offsets"),
        }
    }
}

/// Why a command over the stores writes no text, or not all of it.
#[derive(Clone, Copy, Debug, Error)]
pub enum CommandError {
    #[error("output failed")]
    OutputFailed,
    #[error("out of memory")]
    Memory,
    /// A disk failed.
    #[error("{store} failed")]
    Failed { store: Store },
    /// No offset is stored.
    #[error("not started")]
    NotStarted,
    /// The disk has no journal, or no offset store. `at` is the position of the first wrong or
    /// missing byte of the magic; of a journal's missing commit byte, or that of the entry that is
    /// torn or too long; of an offset store's missing selector, or of the selected slot's content.
    #[error("not a store: {store} at {at}")]
    NotAStore { store: Store, at: u64 },
    /// The number, counted from 0, of the first entry that isn't one of the store or is refused by
    /// the consumer, or of the selected slot, which encodes no offset.
    #[error("bad entry {index} in {store}")]
    BadEntry { store: Store, index: u64 },
}

impl CommandError {
    /// The status of a run that ends with this error.
    pub fn status(self) -> Status
        ensures { result ≡ error_status self }
    {
        match self {
            CommandError::OutputFailed => Status::StdoutFailed,
            CommandError::Memory => Status::OutOfMemory,
            CommandError::Failed {
                store: Store::Topics,
            } => Status::TopicsFailed,
            CommandError::Failed {
                store: Store::Offsets,
            } => Status::OffsetsFailed,
            CommandError::NotStarted => Status::StartMismatch,
            CommandError::NotAStore { .. } | CommandError::BadEntry { .. } => Status::InvalidStore,
        }
    }

    /// The error's line with its newline. The line of a failed output can't be written.
    pub fn text(self, alloc: Global) -> Result<String, AllocError>
        ensures { IfOk result (λ text. string_bytes text ≡ lines_text (error_line self ∷ [])) }
    {
        let line = match self {
            CommandError::OutputFailed => "dblog: output failed\n",
            CommandError::Memory => "dblog: out of memory\n",
            CommandError::NotStarted => "dblog: not started\n",
            CommandError::Failed { store } => return format!(in alloc; "dblog: {store} failed\n"),
            CommandError::NotAStore { store, at } => return format!(in alloc;
                "dblog: not a store: {store} at {at}\n"
            ),
            CommandError::BadEntry { store, index } => return format!(in alloc;
                "dblog: bad entry {index} in {store}\n"
            ),
        };
        String::from_str(alloc, line)
    }
}

impl From<AllocError> for CommandError {
    ghost use Rattle.std.specs.Prelude.{◌≡◌};
    ghost use Rattle.dblog_stores.specs.declared.error.CommandError.TheVariants.{Memory};

    ghost from_gives = { λ _ e. e ≡ Memory };

    fn from(_error: AllocError) -> CommandError {
        CommandError::Memory
    }
}

impl From<PrintError> for CommandError {
    ghost use Rattle.std.specs.Prelude.{◌≡◌};
    ghost use Rattle.dblog_stores.specs.Errors.{print_error};

    ghost from_gives = { λ e f. f ≡ print_error e };

    fn from(error: PrintError) -> CommandError {
        match error {
            PrintError::OutputFailed => CommandError::OutputFailed,
            PrintError::Memory => CommandError::Memory,
        }
    }
}

impl From<TopicError> for CommandError {
    ghost use Rattle.std.specs.Prelude.{◌≡◌};
    ghost use Rattle.dblog_stores.specs.Errors.{topic_error};

    ghost from_gives = { λ e f. f ≡ topic_error e };

    // Opening and reading a topic log have no other error.
    fn from(error: TopicError) -> CommandError {
        let store = Store::Topics;
        match error {
            TopicError::Journal(JournalError::Failed) => CommandError::Failed { store },
            TopicError::Journal(JournalError::NotAJournal { at }) => CommandError::NotAStore {
                store,
                at,
            },
            TopicError::BadEntry { index } => CommandError::BadEntry { store, index },
            TopicError::Journal(_) | TopicError::Memory => CommandError::Memory,
        }
    }
}

impl From<OffsetError> for CommandError {
    ghost use Rattle.std.specs.Prelude.{◌≡◌};
    ghost use Rattle.dblog_stores.specs.Errors.{offset_error};

    ghost from_gives = { λ e f. f ≡ offset_error e };

    // Opening an offset store has no other error.
    fn from(error: OffsetError) -> CommandError {
        let store = Store::Offsets;
        match error {
            OffsetError::Failed => CommandError::Failed { store },
            OffsetError::NotAStore { at } => CommandError::NotAStore { store, at },
            OffsetError::BadOffset { index } => CommandError::BadEntry { store, index },
            OffsetError::TooLong { .. } | OffsetError::Memory => CommandError::Memory,
        }
    }
}
