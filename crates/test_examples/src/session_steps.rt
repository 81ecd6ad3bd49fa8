//! A function of a user, who makes steps of a session over a reader and writers of their own. Its
//! contract says what these steps have written.

ghost use Rattle.std.specs.Prelude.{IfErr, IfNone, IfOk, IfSome, Some};
ghost use Rattle.recode.specs.Job.{IsValidJob};
ghost use Rattle.recode.specs.calls.Buffers.{AreEnough};
ghost use Rattle.test_examples.specs.SessionSteps.{GaveAll, GaveDecided, TellsFault};

use recode::laws::{
    decided_pieces_are_converted, devices_tell, known_input, steps_add_up, steps_are_a_run,
    stops_at_first_loss,
};
use recode::{Buffers, Counted, Fault, Job, Progress, Session};
use std::alloc::Global;
use std::io;
use std::io::{ErrorKind, Read, Write};

// A reader of bytes in memory that gives one at a time. Its `remaining` are those that are left.
#[derive(Drop)]
pub(crate) struct SingleBytes<'a> {
    pub(crate) rest: &'a [u8],
}

impl<'a> Read for SingleBytes<'a> {
    ghost remaining = { λ s. Some s.rest.now };

    fn read(&mut self, buf: &mut [u8]) -> io::Result<usize> {
        let count = self.rest.len().min(buf.len()).min(1);
        let (given, rest) = self.rest.split_at(count);
        buf[..count].copy_from_slice(given);
        self.rest = rest;
        Ok(count)
    }
}

// A writer that keeps all that it is given. Its `contents` are these bytes.
#[derive(Drop)]
pub(crate) struct Keeper {
    pub(crate) bytes: Vec<u8>,
}

impl Write for Keeper {
    ghost contents = { λ s. Some s.bytes.items };

    fn write(&mut self, buf: &[u8]) -> io::Result<usize> {
        match self.bytes.extend_from_slice(buf) {
            Ok(()) => Ok(buf.len()),
            Err(_) => Err(io::Error::from(ErrorKind::OutOfMemory)),
        }
    }

    fn flush(&mut self) -> io::Result<()> {
        Ok(())
    }
}

/// What steps of a conversion gave.
#[derive(Drop)]
pub(crate) struct Gained {
    pub(crate) output: Vec<u8>,
    pub(crate) log: Vec<u8>,
    /// How many characters the text has that was converted.
    pub(crate) characters: u64,
    /// Whether nothing was lost, or `None` if the end of the input was not read.
    pub(crate) faithful: Option<bool>,
}

/// Makes at most so many steps of a conversion, and returns what they gave.
///
/// If they read the end of the input, output, log and verdict are those of the whole job, as of
/// `run`, and the characters are those of its text. If not, they read at least as many bytes as
/// there were steps, and output and log have all that these bytes decide, however the input goes
/// on, and the characters are those of that. So more steps than the input has bytes read all of it.
///
/// A fault is one of a device, or says of the input that it is longer than the limit, or, if the
/// policy stops, which is its first character without bytes.
///
/// The conditions are tested by `Job::is_valid` and `Buffers::is_enough`.
pub(crate) fn convert_steps(
    alloc: Global,
    job: Job<'_>,
    input: &[u8],
    steps: u64,
    buffers: &mut Buffers<'_>,
) -> Result<Gained, Fault>
    requires job { IsValidJob job }
    requires buffers { AreEnough buffers.old }
    ensures whole { IfOk result (λ gained. IfSome gained.faithful
        (GaveAll job.entry input.now gained.output.items gained.log.items gained.characters)) }
    ensures part { IfOk result (λ gained. IfNone gained.faithful
        (GaveDecided job.entry input.now steps gained.output.items gained.log.items
        gained.characters)) }
    ensures fault { IfErr result (TellsFault job.entry input.now) }
{
    steps_are_a_run();
    steps_add_up();
    known_input();
    devices_tell();
    decided_pieces_are_converted();
    stops_at_first_loss();
    let mut reader = Counted::new(SingleBytes { rest: input });
    let mut writer = Counted::new(Keeper {
        bytes: Vec::new(alloc),
    });
    let mut log = Counted::new(Keeper {
        bytes: Vec::new(alloc),
    });
    let mut session = Session::new(job);
    'steps: for _ in 0..steps {
        match session.step(&mut reader, &mut writer, &mut log, buffers)? {
            Progress::More => {}
            Progress::Done => {
                let Some(report) = session.report() else {
                    unreachable!();
                };
                return Ok(Gained {
                    output: writer.into_inner().bytes,
                    log: log.into_inner().bytes,
                    characters: session.characters(),
                    faithful: Some(report.faithful),
                });
            }
        }
    }
    Ok(Gained {
        output: writer.into_inner().bytes,
        log: log.into_inner().bytes,
        characters: session.characters(),
        faithful: None,
    })
}
