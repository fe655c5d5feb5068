//! Values that are written as one line.
ghost use Rattle.std.specs.Prelude.{◌≡◌, ◌++◌, List, ℕ, IfOk, IfErr};
ghost use Rattle.dbl_record.specs.Line.{line_of};
ghost use Rattle.dbl_lines.specs.declared.error.PrintError.TheVariants.{Memory};

use crate::PrintError;
use dbl_base::Text;
use dbl_record::{Record, append_line};

/// A value that is written as one line.
pub trait Line {
    /// The line, without its newline.
    ghost line: { Self → List ℕ };

    /// Appends the line, without its newline; takes the buffer and returns it.
    fn append(&self, out: Vec<u8>) -> Result<Vec<u8>, PrintError>
        ensures line { IfOk result (λ done. done.items ≡ out.items ++ line self.now) }
        ensures memory { IfErr result (λ error. error ≡ Memory) };
}

impl Line for Text {
    ghost line = { λ text. text };

    fn append(&self, mut out: Vec<u8>) -> Result<Vec<u8>, PrintError>
        ensures line { IfOk result (λ done. done.items ≡ out.items ++ self.now) }
        ensures memory { IfErr result (λ error. error ≡ Memory) }
    {
        out.extend_from_slice(self.as_str().as_bytes())?;
        Ok(out)
    }
}

impl Line for Record {
    ghost use Rattle.dbl_record.specs.Line.{line_of};

    ghost line = { λ item. line_of item };

    fn append(&self, out: Vec<u8>) -> Result<Vec<u8>, PrintError>
        ensures line { IfOk result (λ done. done.items ≡ out.items ++ line_of self.now) }
        ensures memory { IfErr result (λ error. error ≡ Memory) }
    {
        match append_line(out, self) {
            Ok(done) => Ok(done),
            Err(_) => Err(PrintError::Memory),
        }
    }
}
