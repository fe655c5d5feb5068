//! The program `dblog`: a run with the arguments, the clock, the standard streams and the files.
#![tactic(auto)]

use dbl_base::{StdInput, StdOutput, Text};
use dbl_disk::FileDisk;
use dblog_run::{Disks, RunError, run, say};
use std::alloc::AllocError;
use std::env;
use std::fs::OpenOptions;
use std::io::{self, ErrorKind};
use std::process::ExitCode;
use std::rt::{Clock, Env, Files};
use std::time::{SystemTime, UNIX_EPOCH};

// The arguments after the program's name, or none, which is no command, if one isn't UTF-8.
fn words(rt: &(impl Env + AllocGlobal)) -> Result<Vec<Text>, AllocError> {
    let mut words = Vec::new(rt.alloc());
    let args = match env::args(rt) {
        Ok(args) => args,
        Err(error) if error.kind() == ErrorKind::InvalidData => return Ok(words),
        Err(_) => return Err(AllocError),
    };
    for word in args.skip(1) {
        words.push(Text::make(word))?;
    }
    Ok(words)
}

// Milliseconds since 1970; 0 if the clock is before it.
fn now_ms(rt: &impl Clock) -> i64 {
    match SystemTime::now(rt) {
        Ok(now) => match now.duration_since(UNIX_EPOCH) {
            Ok(passed) => i64::try_from(passed.as_millis()).unwrap_or(i64::MAX),
            Err(_) => 0,
        },
        Err(_) => 0,
    }
}

// A file that can be neither read nor written as a stream: a folder, opened to be read.
fn open_folder<R: Files>(rt: &R) -> io::Result<R::File> {
    let mut options = OpenOptions::new();
    options.read(true);
    options.open(rt, "/")
}

// The stores are files of the current folder. A disk opens or creates its file at its first call,
// so a command that neither reads nor writes a store leaves its file unchanged.
//
// If a standard stream is closed, its number is the next opened file's. The folders are opened
// first, so that no store gets it and is read or written as that stream, which fails instead.
fn main(rt: HostRuntime) -> ExitCode {
    let folders = [open_folder(&rt), open_folder(&rt), open_folder(&rt)];
    let mut output = StdOutput::make(io::writer(&rt));
    let status = match words(&rt) {
        Ok(words) => {
            let disks = Disks {
                wal: FileDisk::make(&rt, "dblog.wal"),
                topics: FileDisk::make(&rt, "dblog.topics"),
                offsets: FileDisk::make(&rt, "dblog.offsets"),
            };
            let outcome = run(
                rt.alloc(),
                &words,
                now_ms(&rt),
                &mut StdInput::make(rt.reader()),
                &mut output,
                disks,
            );
            outcome.end
        }
        Err(AllocError) => say(rt.alloc(), RunError::Memory, &mut output),
    };
    drop(folders);
    ExitCode::from(status.code())
}
