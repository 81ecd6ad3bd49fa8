//! The words of the command line, handed to the program.

ghost use Rattle.std.specs.Prelude.{◌≡◌, ◌≤◌, ◌<◌, ◌^◌, ◌-◌, ℕ, List, Option, map};
ghost use Rattle.std.specs.Prelude.{IfErr, IfOk, IfSome, length, string_bytes};
ghost use Rattle.recode_log.specs.Counted.{failures_of};
ghost use Rattle.recode_log.specs.Ports.{CallsLog, SameDevices};
ghost use Rattle.recode.specs.Devices.{HaveFailedAtMost, devices_at, devices_in, ports, ports_at};
ghost use Rattle.recode.specs.Program.{TellsSome};
ghost use Rattle.recode_system.specs.CommandLine.{AnswersSystem, IsWhy, words_with_name};

use recode::{IndexSource, NOT_STARTED, REFUSED, program_on};
use recode_log::counted::Counted;
use recode_log::ports::Ports;
use std::alloc::{AllocError, Global};
use std::io::{Read, Write};

/// Why there are no words.
#[derive(Clone, Copy, Debug, PartialEq, Eq)]
pub enum Wordless {
    /// A word is not UTF-8.
    NotUtf8,
    /// Memory was refused.
    Memory,
}

/// Where the words of the command line come from: what `answer` is given, so that it can be run
/// without a system's. A type that has `Env` of std, as the runtime that `main` is given, is one,
/// but its contract says nothing of its words.
pub trait CommandLine {
    /// The bytes of each word, the program's name first, if the command line's contract says them.
    ghost told: { Self → Option (List (List ℕ)) };

    /// The words, all of them and in their order. The error is `NotUtf8` if one is not UTF-8, and
    /// `Memory` if memory was refused.
    fn words(&self, alloc: Global) -> Result<Vec<String>, Wordless>
        ensures words { IfOk result (λ words. IfSome (told self.now)
            (λ all. map string_bytes words.items ≡ all)) }
        ensures why { IfErr result (IsWhy (told self.now)) };
}

// The words as slices of text, in their order.
fn slices<'a>(alloc: Global, words: &'a [String]) -> Result<Vec<&'a str>, AllocError>
    ensures { IfOk result (λ texts. map (λ s. s.now) texts.items ≡ map string_bytes words.now) }
{
    words.iter().map(|word| word.as_str()).collect(alloc)
}

// The words, or the program's own name if there are none, not even a name.
fn with_name<'a>(words: &'a [&'a str]) -> &'a [&'a str]
    ensures some { 0 < length result.now }
    ensures words { map (λ s. s.now) result.now ≡ words_with_name (map (λ s. s.now) words.now) }
{
    if words.is_empty() { &["recode"] } else { words }
}

fn refuse<R, W, L: Write>(ports: &mut Ports<'_, '_, '_, R, W, L>) -> u8
    requires { failures_of ports.old.log.now < 2 ^ 64 - 1 }
    ensures status { result ≡ 2 }
    ensures told { TellsSome ports.old.log.now ports.new.log.now }
    ensures journal { CallsLog ports.old ports.new }
{
    ports.tell_log(b"recode: a word is not UTF-8\n");
    REFUSED
}

fn out_of_memory<R, W, L: Write>(ports: &mut Ports<'_, '_, '_, R, W, L>) -> u8
    requires { failures_of ports.old.log.now < 2 ^ 64 - 1 }
    ensures status { result ≡ 3 }
    ensures told { TellsSome ports.old.log.now ports.new.log.now }
    ensures journal { CallsLog ports.old ports.new }
{
    ports.tell_log(b"recode: out of memory\n");
    NOT_STARTED
}

/// Does what the words of the command line ask for, as `recode::program` says, with the index files
/// of `indexes`, and returns the exit status, which is at most 4. The words are those that the
/// command line's contract says, if it says them. If there are none, not even a name, the program
/// has its own.
///
/// The status is 2 (`REFUSED`) with the message `recode: a word is not UTF-8` if one is not, and 3
/// (`NOT_STARTED`) with `recode: out of memory` if memory for the words was refused. The
/// condition, that at most 2^64 - 5 calls of each device have failed, is tested by
/// `Counted::failures`.
pub fn answer<C: CommandLine + AllocGlobal, S: IndexSource, R: Read, W: Write, L: Write>(
    line: &C,
    indexes: &mut S,
    reader: &mut Counted<R>,
    writer: &mut Counted<W>,
    log: &mut Counted<L>,
) -> u8
    requires counts { HaveFailedAtMost (2 ^ 64 - 5)
        (devices_in reader.old writer.old log.old).failures }
    ensures answered { AnswersSystem (C.told line.now) (S.holds indexes.old) R.remaining W.contents
        L.contents (ports reader.old writer.old log.old) (ports reader.new writer.new log.new)
        result }
    ensures status { result ≤ 4 }
{
    let mut ports = Ports::new(reader, writer, log);
    answer_on(line, indexes, &mut ports)
}

/// Like `answer`, over `Ports`. If a job is run, then at each call of the reader the writer and the
/// log have taken all that is certain of what it gave before, in one order, and no more.
///
/// Conditions: those of `answer`.
pub fn answer_on<C: CommandLine + AllocGlobal, S: IndexSource, R: Read, W: Write, L: Write>(
    line: &C,
    indexes: &mut S,
    ports: &mut Ports<'_, '_, '_, R, W, L>,
) -> u8
    requires counts { HaveFailedAtMost (2 ^ 64 - 5) (devices_at ports.old).failures }
    ensures answered { AnswersSystem (C.told line.now) (S.holds indexes.old) R.remaining W.contents
        L.contents (ports_at ports.old) (ports_at ports.new) result }
    ensures status { result ≤ 4 }
    ensures same { SameDevices ports.old ports.new }
{
    let owned = match line.words(line.alloc()) {
        Ok(owned) => owned,
        Err(Wordless::NotUtf8) => return refuse(ports),
        Err(Wordless::Memory) => return out_of_memory(ports),
    };
    let Ok(words) = slices(line.alloc(), owned.as_slice()) else {
        return out_of_memory(ports);
    };
    let words = with_name(words.as_slice());
    program_on(line.alloc(), words, indexes, ports)
}
