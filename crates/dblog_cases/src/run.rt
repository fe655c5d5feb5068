use crate::answer;
use crate::disks::{MemDisks, Place};
use crate::fuses::Fuses;
use crate::sweep::Sweep;
use crate::words::{Reply, named_number, numbered, repeated};
use dbl_base::{MemInput, MemOutput, Text};
use dbl_disk::FuseDisk;
use dblog_run::{Disks, Outcome, Status};
use std::alloc::{AllocError, Global};
use std::io::{self, Write};
use std::mem;

/// What a run of the program is made with.
#[derive(Drop)]
pub struct Run {
    words: Vec<Text>,
    now_ms: i64,
    input: Vec<u8>,
    failing_reads: Vec<u64>,
    failing_writes: Vec<u64>,
    tail: Option<usize>,
    /// How many calls the disks pass.
    pub fuses: Fuses,
    /// What is changed in turn, where the run is made more than once.
    pub sweep: Option<Sweep>,
}

// The words of a text, with one space between two of them.
fn words_of(alloc: Global, text: &str) -> Result<Vec<Text>, AllocError> {
    let mut words = Vec::new(alloc);
    if !text.is_empty() {
        for word in text.split(' ') {
            words.push(Text::of(alloc, word)?)?;
        }
    }
    Ok(words)
}

impl Run {
    /// A run with these arguments, with one space between two of them, and on this input. Nothing
    /// fails.
    pub fn make(alloc: Global, words: &str, input: Vec<u8>) -> Result<Run, AllocError> {
        Ok(Run {
            words: words_of(alloc, words)?,
            now_ms: 0,
            input,
            failing_reads: Vec::new(alloc),
            failing_writes: Vec::new(alloc),
            tail: None,
            fuses: Fuses::none(),
            sweep: None,
        })
    }

    /// Adds what a line says of the run.
    pub fn add(&mut self, alloc: Global, mark: &str, rest: &str) -> Result<Reply, AllocError> {
        match mark {
            "+" => self.add_word(alloc, rest),
            ">" => self.add_lines(1, rest),
            "*" => self.add_repeated(rest),
            "n" => self.add_numbered(alloc, rest),
            "x" => self.add_bytes(alloc, rest),
            "!" => self.fail(rest),
            _ => Ok(self.set(mark, rest).unwrap_or(Reply::Refusal)),
        }
    }

    fn add_word(&mut self, alloc: Global, word: &str) -> Result<Reply, AllocError> {
        self.words.push(Text::of(alloc, word)?)?;
        Ok(Reply::Line)
    }

    fn add_lines(&mut self, count: u32, text: &str) -> Result<Reply, AllocError> {
        for _ in 0..count {
            self.input.extend_from_slice(text.as_bytes())?;
            self.input.push(b'\n')?;
        }
        Ok(Reply::Nothing)
    }

    fn add_repeated(&mut self, rest: &str) -> Result<Reply, AllocError> {
        match repeated(rest) {
            Some((count, text)) => self.add_lines(count, text),
            None => Ok(Reply::Refusal),
        }
    }

    // Adds a line for each number, with the number for each `#`.
    fn add_numbered(&mut self, alloc: Global, rest: &str) -> Result<Reply, AllocError> {
        let Some((from, to, text)) = numbered(rest) else {
            return Ok(Reply::Refusal);
        };
        for number in from..=to {
            let digits = format!(in alloc; "{number}")?;
            self.add_lines(1, text.replace(alloc, "#", digits.as_str())?.as_str())?;
        }
        Ok(Reply::Nothing)
    }

    fn add_bytes(&mut self, alloc: Global, digits: &str) -> Result<Reply, AllocError> {
        match hex::decode(alloc, digits) {
            Ok(bytes) => {
                self.input.extend_from_slice(bytes.as_slice())?;
                Ok(Reply::Nothing)
            }
            Err(_) => Ok(Reply::Refusal),
        }
    }

    // What fails, and the number of the call.
    fn fail(&mut self, rest: &str) -> Result<Reply, AllocError> {
        match named_number(rest) {
            Some(("read", call)) => self.failing_reads.push(call)?,
            Some(("write", call)) => self.failing_writes.push(call)?,
            _ => return Ok(Reply::Refusal),
        };
        Ok(Reply::Nothing)
    }

    // Sets what a line says, if it has such a form.
    fn set(&mut self, mark: &str, rest: &str) -> Option<Reply> {
        match mark {
            "@" => self.now_ms = rest.parse().ok()?,
            "tail" => self.tail = Some(rest.parse().ok()?),
            "fuse" => {
                let (name, calls) = named_number(rest)?;
                self.fuses.set(Place::named(name)?, calls);
                return Some(Reply::Line);
            }
            "each" => {
                self.sweep = Some(Sweep::read(rest)?);
                return Some(Reply::Line);
            }
            _ => return None,
        }
        Some(Reply::Nothing)
    }

    /// Writes what the program answers if the disks pass so many calls, and returns its status. It
    /// leaves the disks changed.
    pub fn tell<W: Write>(
        &self,
        alloc: Global,
        fuses: Fuses,
        disks: &mut MemDisks,
        writer: &mut W,
    ) -> io::Result<Status> {
        let mut text = Vec::new(alloc);
        let status = self.perform(alloc, fuses, disks, &mut text)?;
        answer::tell(status, text.as_slice(), self.tail, writer)?;
        Ok(status)
    }

    /// Adds the text that the program writes if the disks pass so many calls, and returns its
    /// status. It leaves the disks changed.
    pub fn perform(
        &self,
        alloc: Global,
        fuses: Fuses,
        disks: &mut MemDisks,
        text: &mut Vec<u8>,
    ) -> Result<Status, AllocError> {
        let mut reads = self.failing_reads.clone()?;
        reads.push(fuses.read)?;
        let mut writes = self.failing_writes.clone()?;
        writes.push(fuses.write)?;
        let mut input = MemInput::make(self.input.clone()?, reads);
        let mut output = MemOutput::make(alloc, writes);
        let status = self.run_on(alloc, fuses, disks, &mut input, &mut output);
        text.extend_from_slice(output.bytes())?;
        Ok(status)
    }

    // The status with which the program ends.
    fn run_on(
        &self,
        alloc: Global,
        fuses: Fuses,
        disks: &mut MemDisks,
        input: &mut MemInput,
        output: &mut MemOutput,
    ) -> Status {
        let MemDisks {
            wal,
            topics,
            offsets,
        } = mem::replace(disks, MemDisks::empty(alloc));
        let fused = Disks {
            wal: FuseDisk::make(wal, fuses.wal),
            topics: FuseDisk::make(topics, fuses.topics),
            offsets: FuseDisk::make(offsets, fuses.offsets),
        };
        let outcome = dblog_run::run(alloc, &self.words, self.now_ms, input, output, fused);
        let Outcome { disks: left, end } = outcome;
        let Disks {
            wal,
            topics,
            offsets,
        } = left;
        *disks = MemDisks {
            wal: wal.into_inner(),
            topics: topics.into_inner(),
            offsets: offsets.into_inner(),
        };
        end
    }
}
