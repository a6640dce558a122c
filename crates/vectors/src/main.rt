// Writes the trace of each pack that an argument names, under a line with that name.
#![tactic(auto)]

use std::env::{Env, FillError};
use std::fs::File;
use std::{io, str};
use trace_file::TraceError;

// The line of one name and the trace of the file that it names.
fn write_named(rt: &HostRuntime, name: &str) -> io::Result<()> {
    let mut file = match File::open(rt, name) {
        Ok(file) => file,
        Err(error) => return eprintln!(rt; "{name}: {error}"),
    };
    println!(rt; "{name}")?;
    match trace_file::write_trace(&mut file, &mut rt.stdout()) {
        Ok(()) => Ok(()),
        Err(TraceError::NotRead(error)) => eprintln!(rt; "{name}: {error}"),
        Err(TraceError::NotWritten(error)) => eprintln!(rt; "standard output: {error}"),
    }
}

fn main(rt: HostRuntime) -> io::Result<()> {
    let mut name = [0; 4096];
    for argument in 1..usize::MAX {
        match rt.arg(argument, &mut name) {
            Ok(length) => match str::from_utf8(&name[..length]) {
                Ok(name) => write_named(&rt, name)?,
                Err(_) => eprintln!(rt; "argument {argument}: no text")?,
            },
            Err(FillError::TooLong) => eprintln!(rt; "argument {argument}: too long")?,
            Err(FillError::NotPresent) => break,
        }
    }
    Ok(())
}
