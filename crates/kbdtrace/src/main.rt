// Reads a pack on standard input and writes its trace. What cannot be done is told in one line on standard error.
#![tactic(auto)]

use std::env::{Env, FillError};
use std::io;
use trace_file::TraceError;

// Whether anything stands behind the program's name, be it text or not.
fn has_arguments(rt: &HostRuntime) -> bool {
    let mut start = [0; 1];
    !matches!(rt.arg(1, &mut start), Err(FillError::NotPresent))
}

fn main(rt: HostRuntime) -> io::Result<()> {
    if has_arguments(&rt) {
        return eprintln!(rt; "kbdtrace: takes no argument, reads a pack on standard input");
    }
    match trace_file::write_trace(&mut rt.stdin(), &mut rt.stdout()) {
        Ok(()) => Ok(()),
        Err(TraceError::NotRead(error)) => eprintln!(rt;
            "kbdtrace: cannot read standard input: {error}"
        ),
        Err(TraceError::NotWritten(error)) => eprintln!(rt;
            "kbdtrace: cannot write standard output: {error}"
        ),
    }
}
