//! Runs the program `dblog` on the cases of standard input, over streams and disks in memory, and
//! writes what each run answers. The file `stdin` beside this folder has the form of a case.
#![tactic(auto)]

mod answer;
mod disks;
mod fuses;
mod run;
mod statuses;
mod stops;
mod sweep;
mod transcript;
mod trials;
mod words;

use crate::transcript::Transcript;
use std::alloc::Global;
use std::io::{self, BufRead, BufReader, BufWriter, Read, Write};

fn take_line<W: Write>(
    line: io::Result<String>,
    transcript: &mut Transcript,
    writer: &mut W,
) -> io::Result<()> {
    transcript.take(line?.as_str(), writer)
}

// Takes each line that is read, and ends the last run.
fn take_lines<R: Read + Drop, W: Write>(
    alloc: Global,
    reader: R,
    transcript: &mut Transcript,
    writer: &mut W,
) -> io::Result<()> {
    for line in BufReader::new(alloc, reader)?.lines(alloc) {
        take_line(line, transcript, writer)?;
    }
    transcript.end(writer)
}

fn answer_all<R: Read + Drop, W: Write>(
    alloc: Global,
    reader: R,
    writer: &mut W,
) -> io::Result<()> {
    let mut transcript = Transcript::make(alloc);
    take_lines(alloc, reader, &mut transcript, writer)
}

fn main(rt: HostRuntime) -> io::Result<()> {
    let mut writer = BufWriter::new(rt.alloc(), io::writer(&rt))?;
    answer_all(rt.alloc(), rt.reader(), &mut writer)?;
    writer.flush()
}
