//! The program: reads a specification and an expression, runs it, and reports.
#![tactic(auto)]

use std::alloc::Global;
use std::env::{self, Env};
use std::io::{ErrorKind, writer};
use std::process::ExitCode;
use vdm_cli::vdm_main::vdm_main;
use vdm_outside::{StdSink, StdSource};

/// The status where memory runs out before the words are known.
const OUT_OF_MEMORY: u8 = 9;

fn main(rt: HostRuntime) -> ExitCode {
    let mut source = StdSource::new(rt.reader());
    let mut sink = StdSink::new(writer(&rt));
    match words(&rt, rt.alloc()) {
        Ok(words) => ExitCode::from(vdm_main(
            rt.alloc(),
            &words,
            &mut source,
            &mut sink,
        ).into_status()),
        Err(status) => ExitCode::from(status),
    }
}

/// The words behind the program's name. Where one is no UTF-8 there are none, which is no command.
fn words<R: Env + AllocGlobal>(rt: &R, alloc: Global) -> Result<Vec<String>, u8> {
    match env::args(rt) {
        Ok(words) => words.skip(1).collect(alloc).map_err(|_| OUT_OF_MEMORY),
        Err(error) if error.kind() == ErrorKind::OutOfMemory => Err(OUT_OF_MEMORY),
        Err(_) => Ok(Vec::new(alloc)),
    }
}
