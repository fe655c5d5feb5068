//! `apply --lines`: the tables that a consumer of lines of change events has.
ghost use Rattle.std.specs.Prelude.{◌≡◌, ◌≢◌, ◌++◌, ◌∷◌, [], List, ℕ};
ghost use Rattle.std.specs.Prelude.{Some, None, IfOk, IfErr, OnOk};
ghost use Rattle.std.specs.Option.{option_to_list};
ghost use Rattle.std.specs.String.{string_bytes};
ghost use Rattle.dbl_base.specs.Lines.{lines_of, lines_text};
ghost use Rattle.dbl_record.specs.Acts.{Reading};
ghost use Rattle.dbl_consume.specs.Holdings.{Took, placeholder_of};
ghost use Rattle.dbl_consume.specs.Records.{recorded_as};
ghost use Rattle.dblog_replay.specs.Apply.{line_fault_of, fault_in, first_line_fault};
ghost use Rattle.dblog_replay.specs.Apply.{reading_of_line, readings_of_lines};
ghost use Rattle.dblog_replay.specs.Apply.{refusal_text, words_of, fault_text};

use dbl_base::Text;
use dbl_consume::{ConsumeError, Consumer, ParsedRecord, parse_record};
use dbl_lines::LongText;
use json::Scratch;
use std::alloc::{AllocError, Global};
use std::str;

/// Why a line isn't applied.
#[derive(Drop)]
pub enum LineFault {
    /// The line isn't UTF-8, or is no record.
    BadRecord,
    /// The consumer refuses the line's record, for another cause than out of memory.
    Refused { error: ConsumeError },
    Memory,
}

/// The first line that isn't applied.
#[derive(Drop)]
pub struct FaultAt {
    /// The line's number, counted from 1.
    pub number: u64,
    pub fault: LineFault,
}

fn refusal_text(alloc: Global, error: &ConsumeError) -> Result<String, AllocError>
    ensures { IfOk result (λ text. string_bytes text ≡ refusal_text error.now) }
{
    let text = match error {
        ConsumeError::BadJson => "C1 bad json",
        ConsumeError::NoOp => "C2 no op",
        ConsumeError::UnknownOp => "C3 unknown op",
        ConsumeError::NoKey => "C4 no key",
        ConsumeError::BadAfter => "C5 bad after",
        ConsumeError::FloatCell { column } => return format!(in alloc; "C6 float cell {column}"),
        ConsumeError::NestedCell { column } => return format!(in alloc; "C7 nested cell {column}"),
        ConsumeError::Memory => "C8 out of memory",
    };
    String::from_str(alloc, text)
}

fn words_of(alloc: Global, fault: &LineFault) -> Result<String, AllocError>
    ensures { IfOk result (λ words. string_bytes words ≡ words_of fault.now) }
{
    match fault {
        LineFault::BadRecord => String::from_str(alloc, "B1 bad record"),
        LineFault::Refused { error } => refusal_text(alloc, error),
        LineFault::Memory => String::from_str(alloc, "out of memory"),
    }
}

impl FaultAt {
    /// The error's line with its newline.
    pub fn text(&self, alloc: Global) -> Result<String, AllocError>
        ensures { IfOk result (λ text. string_bytes text ≡ lines_text (fault_text self.now ∷ [])) }
    {
        let number = self.number;
        let words = words_of(alloc, &self.fault)?;
        format!(in alloc; "dblog: line {number}: {words}\n")
    }
}

fn take_parsed<'a>(held: &mut Consumer, parsed: &ParsedRecord<'a>) -> Result<(), LineFault>
    ensures took { (taken : List Reading) → Took taken held.old →
        OnOk result (Took (taken ++ recorded_as parsed.now ∷ []) held.new) }
    ensures good { OnOk result
        (line_fault_of (placeholder_of held.old) (Some (recorded_as parsed.now)) ≡ None) }
    ensures bad { IfErr result (λ fault. fault ≢ LineFault.Memory →
        line_fault_of (placeholder_of held.old) (Some (recorded_as parsed.now)) ≡ Some fault) }
    ensures placeholder { placeholder_of held.new ≡ placeholder_of held.old }
{
    match held.apply_parsed(parsed) {
        Ok(()) => Ok(()),
        Err(ConsumeError::Memory) => Err(LineFault::Memory),
        Err(error) => Err(LineFault::Refused { error }),
    }
}

fn take_line(
    alloc: Global,
    scratch: &mut Scratch,
    held: &mut Consumer,
    line: &[u8],
) -> Result<(), LineFault>
    ensures took { (taken : List Reading) → Took taken held.old →
        OnOk result (Took (taken ++ option_to_list (reading_of_line line.now)) held.new) }
    ensures good { OnOk result (fault_in (placeholder_of held.old) line.now ≡ None) }
    ensures bad { IfErr result (λ fault. fault ≢ LineFault.Memory →
        fault_in (placeholder_of held.old) line.now ≡ Some fault) }
    ensures placeholder { placeholder_of held.new ≡ placeholder_of held.old }
{
    if line.is_empty() {
        return Ok(());
    }
    let text = match str::from_utf8(line) {
        Ok(text) => text,
        Err(_) => return Err(LineFault::BadRecord),
    };
    match parse_record(alloc, text, scratch) {
        Ok(Some(parsed)) => take_parsed(held, &parsed),
        Ok(None) => Err(LineFault::BadRecord),
        Err(_) => Err(LineFault::Memory),
    }
}

fn out_of_memory(number: u64) -> FaultAt
    ensures { result.fault ≡ LineFault.Memory }
{
    FaultAt {
        number,
        fault: LineFault::Memory,
    }
}

/// A consumer that applied the records of the lines of the text, or the first line that isn't
/// applied. The text is freed as its lines are applied.
pub fn consume(alloc: Global, placeholder: Text, text: LongText) -> Result<Consumer, FaultAt>
    ensures took { IfOk result (Took (readings_of_lines (lines_of text))) }
    ensures placeholder { IfOk result (λ held. placeholder_of held ≡ placeholder) }
    ensures good { OnOk result (first_line_fault placeholder (lines_of text) ≡ None) }
    ensures bad { IfErr result (λ at. at.fault ≢ LineFault.Memory →
        first_line_fault placeholder (lines_of text) ≡ Some at) }
{
    let mut held = match Consumer::make(alloc, placeholder) {
        Ok(held) => held,
        Err(_) => return Err(out_of_memory(0)),
    };
    let mut scratch = Scratch::new(alloc);
    let mut line = Vec::new(alloc);
    let mut rest = text;
    let mut number = 0u64;
    'lines: loop {
        let more = match rest.next_line(&mut line) {
            Ok(more) => more,
            Err(_) => return Err(out_of_memory(number)),
        };
        if !more {
            return Ok(held);
        }
        number = match number.checked_add(1) {
            Some(next) => next,
            None => return Err(out_of_memory(number)),
        };
        match take_line(alloc, &mut scratch, &mut held, line.as_slice()) {
            Ok(()) => {}
            Err(fault) => return Err(FaultAt { number, fault }),
        }
    }
}
