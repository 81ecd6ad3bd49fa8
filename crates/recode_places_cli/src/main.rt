//! Prints where in an input each thing is that a run of `recode` lost, as the words of the command
//! line ask.
#![tactic(auto)]

mod command;
mod fault;
mod log;
mod program;
mod words;

use crate::program::{Streams, answer};
use std::io::IsTerminal;
use std::process::ExitCode;

fn main(rt: HostRuntime) -> ExitCode {
    let streams = Streams {
        log: rt.stdin(),
        output: rt.stdout(),
        messages: rt.stderr(),
        has_colour: rt.stdout().is_terminal(),
    };
    ExitCode::from(answer(&rt, streams))
}
