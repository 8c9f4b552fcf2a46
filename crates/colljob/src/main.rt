//! `colljob` answers job texts. `colljob plain` reads a text on standard input and writes its output lines on standard
//! output, each value computed directly; `colljob run` has the text carried out by threads and writes what they got. At a
//! fault standard output stays empty, but at a write fault, and one line goes to standard error.
//!
//! What the program does stands in the library `coll_job`.
#![tactic(auto)]

use coll_job::main_of;
use std::process::ExitCode;

fn main(rt: HostRuntime) -> ExitCode {
    main_of(&rt, &rt)
}
