//! Answers rows: each line of standard input is a request, and its answer is a line of standard output.
#![tactic(auto)]

use row_programs::serve;
use std::io;

fn main(rt: HostRuntime) -> io::Result<()> {
    serve(&rt, rt.alloc(), rt.reader(), io::writer(&rt))
}
