use crate::disks::{MemDisks, Place};
use crate::run::Run;
use crate::trials::tell_each;
use crate::words::Reply;
use dbl_disk::Choice;
use std::alloc::{AllocError, Global};
use std::io::{self, Write};
use std::mem;

/// The run that the lines so far make ready, if they do, and the disks of the case.
#[derive(Drop)]
pub struct Transcript {
    alloc: Global,
    run: Option<Run>,
    disks: MemDisks,
}

impl Transcript {
    pub fn make(alloc: Global) -> Transcript {
        Transcript {
            alloc,
            run: None,
            disks: MemDisks::empty(alloc),
        }
    }

    /// Takes a line, and writes what the run answers that it ends. A line of another form is
    /// written after a question mark, so that a slip in a case shows in the answers.
    pub fn take<W: Write>(&mut self, line: &str, writer: &mut W) -> io::Result<()> {
        if line.is_empty() || line.starts_with('#') {
            return Ok(());
        }
        let (mark, rest) = line.split_once(' ').unwrap_or((line, ""));
        match self.act(mark, rest, writer)? {
            Reply::Nothing => Ok(()),
            Reply::Line => writeln!(writer, "{line}"),
            Reply::Refusal => writeln!(writer, "? {line}"),
        }
    }

    // Does what a line says.
    fn act<W: Write>(&mut self, mark: &str, rest: &str, writer: &mut W) -> io::Result<Reply> {
        match mark {
            "case" => self.clear(writer),
            "$" => self.begin(rest, writer),
            "|" => self.pipe(rest, writer),
            "crash" => self.crash(rest, writer),
            "show" => self.show(rest, writer),
            _ => match Place::named(mark) {
                Some(place) => self.hold(place, rest, writer),
                None => Ok(self.add(mark, rest)?),
            },
        }
    }

    /// Ends the run that is made ready, and writes its answer.
    pub fn end<W: Write>(&mut self, writer: &mut W) -> io::Result<()> {
        let Some(run) = self.run.take() else {
            return Ok(());
        };
        let ended = self.tell(&run, writer);
        drop(run);
        ended
    }

    // Writes what the run answers, which leaves the disks to the next one.
    fn tell<W: Write>(&mut self, run: &Run, writer: &mut W) -> io::Result<()> {
        if let Some(sweep) = run.sweep {
            return tell_each(self.alloc, run, &self.disks, sweep, writer);
        }
        run.tell(self.alloc, run.fuses, &mut self.disks, writer)?;
        Ok(())
    }

    // Ends the run, and puts empty disks in place of the case's.
    fn clear<W: Write>(&mut self, writer: &mut W) -> io::Result<Reply> {
        self.end(writer)?;
        drop(mem::replace(&mut self.disks, MemDisks::empty(self.alloc)));
        Ok(Reply::Line)
    }

    fn begin<W: Write>(&mut self, words: &str, writer: &mut W) -> io::Result<Reply> {
        self.end(writer)?;
        self.begin_on(words, Vec::new(self.alloc))?;
        Ok(Reply::Line)
    }

    // The run before it has ended.
    fn begin_on(&mut self, words: &str, input: Vec<u8>) -> Result<(), AllocError> {
        let run = Run::make(self.alloc, words, input)?;
        drop(mem::replace(&mut self.run, Some(run)));
        Ok(())
    }

    // Ends the run, writes only its status, and begins one on its text.
    fn pipe<W: Write>(&mut self, words: &str, writer: &mut W) -> io::Result<Reply> {
        let Some(run) = self.run.take() else {
            return Ok(Reply::Refusal);
        };
        let mut text = Vec::new(self.alloc);
        let status = run.perform(self.alloc, run.fuses, &mut self.disks, &mut text);
        drop(run);
        let code = status?.code();
        writeln!(writer, "status {code}")?;
        self.begin_on(words, text)?;
        Ok(Reply::Line)
    }

    // Ends the run, and leaves what a crash does of the disks.
    fn crash<W: Write>(&mut self, rest: &str, writer: &mut W) -> io::Result<Reply> {
        let choice = match rest {
            "old" => Choice::Old,
            "new" => Choice::New,
            _ => match rest.parse() {
                Ok(byte) => Choice::Fill(byte),
                Err(_) => return Ok(Reply::Refusal),
            },
        };
        self.end(writer)?;
        let disks = mem::replace(&mut self.disks, MemDisks::empty(self.alloc));
        let found = self.disks.find(&disks, choice);
        drop(disks);
        found?;
        Ok(Reply::Line)
    }

    // Ends the run, and puts bytes on a disk.
    fn hold<W: Write>(&mut self, place: Place, digits: &str, writer: &mut W) -> io::Result<Reply> {
        self.end(writer)?;
        match hex::decode(self.alloc, digits) {
            Ok(bytes) => {
                self.disks.put(self.alloc, place, bytes.as_slice())?;
                Ok(Reply::Nothing)
            }
            Err(_) => Ok(Reply::Refusal),
        }
    }

    // Ends the run, and writes the disk's bytes in hexadecimal.
    fn show<W: Write>(&mut self, name: &str, writer: &mut W) -> io::Result<Reply> {
        let Some(place) = Place::named(name) else {
            return Ok(Reply::Refusal);
        };
        self.end(writer)?;
        writeln!(writer, "show {name}")?;
        for byte in self.disks.bytes(place) {
            write!(writer, "{byte:02x}")?;
        }
        writer.write_all(b"\n")?;
        Ok(Reply::Nothing)
    }

    // What a line adds to the run.
    fn add(&mut self, mark: &str, rest: &str) -> Result<Reply, AllocError> {
        match &mut self.run {
            Some(run) => run.add(self.alloc, mark, rest),
            None => Ok(Reply::Refusal),
        }
    }
}
