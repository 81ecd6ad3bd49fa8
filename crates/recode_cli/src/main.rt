//! Recodes standard input to standard output, as the words of the command line ask, and reports on
//! standard error what was lost.
#![tactic(auto)]

mod noted;
mod reason;
mod same_file;

use crate::noted::Noted;
use crate::reason::{Asked, Reason};
use crate::same_file::is_output_the_input;
use recode::{Counted, FAULT, NOT_STARTED, Ports, REFUSED};
use recode_system::{SystemFiles, answer_on};
use std::process::ExitCode;

fn main(rt: HostRuntime) -> ExitCode {
    let mut reader = Counted::new(Noted::new(rt.stdin()));
    let mut writer = Counted::new(Noted::new(rt.stdout()));
    let mut log = Counted::new(Noted::new(rt.stderr()));
    if is_output_the_input(&rt) && Asked::of_line(&rt) == Asked::Conversion {
        Reason::OutputIsInput.explain(rt.alloc(), &mut log);
        return ExitCode::from(REFUSED);
    }
    let mut indexes = SystemFiles::new(&rt);
    let mut ports = Ports::new(&mut reader, &mut writer, &mut log);
    let status = answer_on(&rt, &mut indexes, &mut ports);
    match status {
        REFUSED => {
            if let Asked::UnknownLabel(option) = Asked::of_line(&rt) {
                Reason::Label(option).explain(rt.alloc(), &mut log);
            }
        }
        NOT_STARTED => {
            if let Some(missing) = &indexes.missing {
                Reason::Index(missing).explain(rt.alloc(), &mut log);
            }
        }
        FAULT => {
            let reason = Reason::of_stream("standard input", &reader)
                .or(Reason::of_stream("standard output", &writer))
                .or(Reason::of_stream("standard error", &log));
            if let Some(reason) = reason {
                reason.explain(rt.alloc(), &mut log);
            }
        }
        _ => {}
    }
    ExitCode::from(status)
}
