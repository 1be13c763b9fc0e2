//! The program: the words, the files, standard input, output and error are handed to the top call.
#![tactic(auto)]

use ifs_outside::{Sink, StdFiles, StdSink, StdSource, write_all};
use ifs_top::run;
use std::alloc::Global;
use std::process::ExitCode;
use std::{env, io};

// The words behind the program's name; an error where one isn't UTF-8, or memory ran out.
fn words(rt: &HostRuntime) -> io::Result<Vec<String>> {
    let mut words = Vec::new(rt.alloc());
    for word in env::args(rt)?.skip(1) {
        words.push(word)?;
    }
    Ok(words)
}

// Says that the words can't be read, and gives the status.
fn refuse<E: Sink>(error: &io::Error, err: &mut E) -> u8 {
    let memory = error.kind() == io::ErrorKind::OutOfMemory;
    let line: &[u8] = if memory {
        b"error: memory\n"
    } else {
        b"error: words: not UTF-8\n"
    };
    match write_all(err, line) {
        Ok(()) => { if memory { 5 } else { 2 } }
        Err(_) => { if memory { 5 } else { 4 } }
    }
}

fn main(rt: HostRuntime) -> ExitCode {
    let alloc: Global = rt.alloc();
    let mut err = StdSink::new(rt.stderr());
    let status = match words(&rt) {
        Ok(words) => {
            let mut input = StdSource::new(rt.stdin());
            let mut out = StdSink::new(rt.stdout());
            let mut files = StdFiles::new(rt);
            run(alloc, &words, &mut input, &mut files, &mut out, &mut err)
        }
        Err(error) => refuse(&error, &mut err),
    };
    ExitCode::from(status)
}
