//! A line of one conversion: what is converted, and what must come of it.

use crate::parts::{bytes_of, integer};
use crate::trial::Setting;
use anyhow::{Context, bail, ensure};
use encoding_front::Encoding;
use recode::{Fault, Mark, Policy, Report};
use std::alloc::Global;

/// How a conversion ends.
#[derive(Clone, Copy)]
pub enum Ending {
    /// All of the input is converted.
    Told { faithful: bool },
    /// The policy stops the conversion.
    Stopped(Fault),
}

/// Which plans a case is converted by.
#[derive(Clone, Copy)]
pub struct Scope {
    /// Only with one read and large buffers.
    pub is_once: bool,
    /// Also with rooms of 4 to 9 bytes for the output.
    pub has_rooms: bool,
    /// Also by the calls for whole inputs and whole texts.
    pub has_calls: bool,
}

/// What stands before the `:` of a line, such as `shift_jis -> iso-2022-jp keep stop`.
#[derive(Clone, Copy)]
pub struct Head {
    pub from: Encoding,
    pub to: Encoding,
    /// How byte order marks are treated. `None` stands for each way.
    pub mark: Option<Mark>,
    pub policy: Policy,
    pub scope: Scope,
}

/// A line of one conversion.
#[derive(Drop)]
pub struct Case {
    pub head: Head,
    pub input: Vec<u8>,
    pub output: Vec<u8>,
    pub log: Vec<u8>,
    pub bad: u64,
    pub lost: u64,
    /// The encoding that the input turns out to be in.
    pub found: Encoding,
    pub ending: Ending,
}

// Returns the encoding of this name.
pub(crate) fn encoding_of(name: &str) -> anyhow::Result<Encoding> {
    Encoding::for_label(name.trim().as_bytes()).context("no encoding has this name")
}

impl Head {
    /// Returns a head with these encodings and no words after them.
    pub fn between(from: &str, to: &str) -> anyhow::Result<Self> {
        Ok(Head {
            from: encoding_of(from)?,
            to: encoding_of(to)?,
            mark: None,
            policy: Policy::Decimal,
            scope: Scope {
                is_once: false,
                has_rooms: false,
                has_calls: false,
            },
        })
    }

    /// Reads words such as `shift_jis -> iso-2022-jp keep stop`.
    pub fn of(words: &str) -> anyhow::Result<Self> {
        let (from, rest) = words.split_once(" -> ").context("a line has no ` -> `")?;
        let (to, rest) = rest.split_once(' ').unwrap_or((rest, ""));
        let mut head = Head::between(from, to)?;
        for word in rest.split_whitespace() {
            head.take(word)?;
        }
        Ok(head)
    }

    fn take(&mut self, word: &str) -> anyhow::Result<()> {
        match word {
            "sniff" => self.mark = Some(Mark::Sniff),
            "remove" => self.mark = Some(Mark::Remove),
            "keep" => self.mark = Some(Mark::Keep),
            "hexadecimal" => self.policy = Policy::Hexadecimal,
            "stop" => self.policy = Policy::Stop,
            "once" => self.scope.is_once = true,
            "rooms" => self.scope.has_rooms = true,
            "calls" => self.scope.has_calls = true,
            _ => bail!("a word is not known"),
        }
        Ok(())
    }

    /// Returns the setting of a conversion of these bytes, whose number is the limit. If each way
    /// to treat marks is meant, marks are kept.
    pub fn setting<'a>(&self, input: &'a [u8]) -> Setting<'a> {
        Setting {
            from: self.from,
            to: self.to,
            mark: self.mark.unwrap_or(Mark::Keep),
            policy: self.policy,
            input,
            limit: input.len(),
        }
    }
}

/// Adds a line such as `bad 0 1` to a log.
pub fn add_line(item: &str, log: &mut Vec<u8>) -> anyhow::Result<()> {
    log.extend_from_slice(item.as_bytes())?;
    log.push(b'\n')?;
    Ok(())
}

/// Returns the fault of a policy that stops, by numbers such as `1 232`: how many characters stand
/// before the one without bytes, and the number of that character.
pub fn stop_of(numbers: &str) -> anyhow::Result<Fault> {
    let (index, scalar) = numbers.split_once(' ').context("a stop has two numbers")?;
    let number = u32::try_from(integer(scalar)?).ok();
    let scalar = char::from_u32(number.context("a character is too large")?);
    Ok(Fault::Unmappable {
        index: integer(index)?,
        scalar: scalar.context("a number is not a character's")?,
    })
}

impl Case {
    /// Reads words such as `836E => 1B2442254F1B2842 | faithful`.
    pub fn of(alloc: Global, head: Head, words: &str) -> anyhow::Result<Self> {
        let (input, rest) = words.split_once("=>").context("a line has no `=>`")?;
        let mut items = rest.split('|');
        let output = items.next().unwrap_or("");
        let mut case = Case {
            head,
            input: bytes_of(alloc, input)?,
            output: bytes_of(alloc, output)?,
            log: Vec::new(alloc),
            bad: 0,
            lost: 0,
            found: head.from,
            ending: Ending::Told { faithful: true },
        };
        let mut endings = 0_u32;
        for item in items {
            if case.take(item.trim())? {
                endings = endings.saturating_add(1);
            }
        }
        ensure!(endings == 1, "a line has not one ending");
        Ok(case)
    }

    // Takes one item of a line. Returns whether the item says how the conversion ends.
    fn take(&mut self, item: &str) -> anyhow::Result<bool> {
        let (word, rest) = item.split_once(' ').unwrap_or((item, ""));
        match word {
            "bad" => self.bad = self.bad.saturating_add(1),
            "lost" => self.lost = self.lost.saturating_add(1),
            "found" => self.found = encoding_of(rest)?,
            "faithful" => self.ending = Ending::Told { faithful: true },
            "lossy" => self.ending = Ending::Told { faithful: false },
            "stopped" => self.ending = Ending::Stopped(stop_of(rest)?),
            _ => bail!("what is said of a conversion is not known"),
        }
        if word == "bad" || word == "lost" {
            add_line(item, &mut self.log)?;
        }
        Ok(word == "faithful" || word == "lossy" || word == "stopped")
    }

    /// Compares the report, and checks the bound of calls of codecs. If the policy must stop the
    /// conversion, compares the fault.
    pub fn compare(&self, answer: Result<Report, Fault>) -> anyhow::Result<()> {
        match (self.ending, answer) {
            (Ending::Stopped(fault), answer) => {
                ensure!(answer == Err(fault), "it is not stopped so: {answer:?}");
            }
            (Ending::Told { .. }, Err(fault)) => bail!("it ends by a fault, {fault:?}"),
            (Ending::Told { faithful }, Ok(report)) => {
                self.compare_report(faithful, report)?;
            }
        }
        Ok(())
    }

    fn compare_report(&self, faithful: bool, report: Report) -> anyhow::Result<()> {
        let want = Report {
            read: self.input.len() as u64,
            bad: self.bad,
            lost: self.lost,
            calls: report.calls,
            encoding: self.found,
            faithful,
        };
        ensure!(report == want, "another report: {report:?}");
        few_calls(report)
    }
}

/// Checks the bound of calls of codecs.
pub fn few_calls(report: Report) -> anyhow::Result<()> {
    let most = report.read.saturating_mul(37).saturating_add(9);
    let calls = report.calls;
    ensure!(
        calls <= most,
        "{calls} calls of codecs pass the bound, {most}"
    );
    Ok(())
}
