//! Recodes a stream from one encoding to another, logs each malformed sequence and each character
//! without bytes, and says at the end whether anything was lost. Five target encodings write some
//! characters as others. A character that then reads back as another has no line in the log: the
//! run only reports that something was lost.
//!
//! A `Job` says what to recode and how. `run` and `convert` make a whole conversion, from a reader
//! to a writer and a log; `Session` makes it step by step; `program` does what the words of a
//! command line ask for. Readers and writers are wrapped in `Counted`, and buffers are lent
//! (`Buffers`): nothing is kept between calls but a few bytes. `run_on`, `convert_on`, `step_on` and
//! `program_on` do the same over `Ports`, and also promise the order of the calls of all three
//! devices. `Converter` does the same without I/O: pass it input and an output buffer, as a decoder
//! or an encoder.
//!
//! # Use
//!
//!     let tables = Tables::new(alloc);
//!     let job = Job {
//!         from: Encoding::Utf16Le,
//!         to: Encoding::Utf8,
//!         mark: Mark::Sniff,
//!         policy: Policy::Decimal,
//!         limit: GREATEST_LIMIT,
//!         tables: &tables,
//!     };
//!     let mut input = [0; 64];
//!     let mut text = [0; 64];
//!     let mut output = [0; 64];
//!     let mut text_again = [0; 64];
//!     let pivot = Pivot::Utf8(&mut text);
//!     let check = Pivot::Utf8(&mut text_again);
//!     let mut buffers = Buffers {
//!         input: &mut input,
//!         pivot,
//!         output: &mut output,
//!         check,
//!     };
//!     if !job.is_valid() || !buffers.is_enough() {
//!         return Ok(false);
//!     }
//!     let mut reader = Counted::new(b"c\x00\xE9\x00\x00\xD8".as_slice());
//!     let mut writer = Counted::new(Vec::new(alloc));
//!     let mut log = Counted::new(Vec::new(alloc));
//!     let report = run(&mut reader, &mut writer, &mut log, job, &mut buffers)?;
//!
//! The writer has `cé` and U+FFFD in UTF-8, the log the line `bad 4 2`, and `report.faithful` is
//! false: the input ends in a lone surrogate.
#![tactic(auto)]

mod chunk;
mod codec_calls;
pub mod conversion;
pub mod converter;
mod counts;
mod engine;
mod entry;
mod indexes;
pub mod job;
pub mod laws;
mod listing;
pub mod parts;
pub mod session;
mod verdict;
mod writers;

pub use conversion::{FAITHFUL, FAULT, NOT_FAITHFUL, convert, convert_on};
pub use converter::saved_converter::{SavedConverter, SavedJob, SavedVerdict};
pub use converter::{Converter, ConverterResult};
pub use counts::Counts;
// What calls take is handed on as well as what they return: a job is made from this crate alone.
pub use encoding_front::{DecoderResult, EncoderResult, Encoding, Mark, Reference};
pub use encoding_tables::Tables;
pub use entry::{NOT_STARTED, REFUSED, program, program_on};
pub use indexes::{IndexSource, SourceFault, StartFault, load_indexes};
pub use job::{Buffers, Fault, Job, Pivot, Policy, Progress, Report};
pub use recode_log::{Counted, LogLine, Ports};
pub use recode_words::GREATEST_LIMIT;
pub use session::{Phase, Session, run, run_on};
