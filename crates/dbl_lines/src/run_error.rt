ghost use Rattle.std.specs.Prelude.{◌≡◌, ◌∷◌, [], IfOk};
ghost use Rattle.std.specs.String.{string_bytes};
ghost use Rattle.dbl_base.specs.Lines.{lines_text};
ghost use Rattle.dbl_lines.specs.Faults.{status_of, fault_line};

use crate::status::Status;
use std::alloc::{AllocError, Global};

/// Why a run ends with a line of its own instead of records.
#[derive(Clone, Copy)]
pub enum RunError {
    Usage,
    InputFailed,
    Memory,
    /// The line's number, counted from 1.
    BadLine { number: u64 },
    InputTooLong,
}

impl RunError {
    /// The status of a run that ends with this error.
    pub fn status(self) -> Status
        ensures { result ≡ status_of self }
    {
        match self {
            RunError::Usage => Status::InvalidArguments,
            RunError::InputFailed => Status::StdinFailed,
            RunError::Memory => Status::OutOfMemory,
            RunError::BadLine { number: _ } => Status::InvalidInput,
            RunError::InputTooLong => Status::InvalidInput,
        }
    }

    /// The error's line, with its newline.
    pub fn text(self, alloc: Global) -> Result<String, AllocError>
        ensures { IfOk result (λ s. string_bytes s ≡ lines_text (fault_line self ∷ [])) }
    {
        let line = match self {
            RunError::Usage => "dblog: usage\n",
            RunError::InputFailed => "dblog: input failed\n",
            RunError::Memory => "dblog: out of memory\n",
            RunError::BadLine { number } => return format!(in alloc;
                "dblog: line {number}: bad line\n"
            ),
            RunError::InputTooLong => "dblog: input too long\n",
        };
        String::from_str(alloc, line)
    }
}

impl From<AllocError> for RunError {
    ghost use Rattle.std.specs.Prelude.{◌≡◌};
    ghost use Rattle.dbl_lines.specs.declared.run_error.RunError.TheVariants.{Memory};

    ghost from_gives = { λ _ e. e ≡ Memory };

    fn from(_error: AllocError) -> RunError {
        RunError::Memory
    }
}
