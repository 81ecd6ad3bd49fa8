//! The values that clap's parse gives, and what they stand for.

ghost use Rattle.std.specs.Prelude.{◌≡◌, IfOk, IfErr, Some, map, true, is_some};
ghost use Rattle.clap.specs.Words.{app_of, first_value, found_of};
ghost use Rattle.recode_words.specs.Command.{recode_app};
ghost use Rattle.recode_words.specs.Given.{HasValues, HasWrongValue, IsEndOf, IsMatch, IsReading};

use crate::words::{MarkWord, PivotWord, PolicyWord, Words, limit_from};
use clap::{ArgMatches, Command, Error};

// The values of the options, as clap's parse gives them.
#[derive(Clone, Copy)]
pub(crate) struct Values<'a> {
    from: &'a str,
    to: &'a str,
    indexes: &'a str,
    mark: &'a str,
    unmappable: &'a str,
    pivot: &'a str,
    limit: &'a str,
}

// A value that its option does not take.
#[derive(Clone, Copy)]
pub(crate) struct WrongValue<'a> {
    // The option, as the help shows it.
    pub(crate) option: &'static str,
    pub(crate) value: &'a str,
    // What the option takes.
    pub(crate) possible: &'static str,
}

// The matches of the words.
fn matches<'a>(command: &mut Command<'a>, words: &'a [&'a str]) -> Result<ArgMatches<'a>, Error>
    requires { app_of command.old ≡ recode_app }
    ensures ok { IfOk result (IsMatch (map (λ s. s.now) words.now)) }
    ensures err { IfErr result (IsEndOf (map (λ s. s.now) words.now)) }
{
    command.try_get_matches_from_mut(words)
}

// The value of an option that has one.
fn value<'a>(matches: &ArgMatches<'a>, name: &str) -> &'a str
    requires { is_some (first_value (found_of matches.now) name.now) ≡ true }
    ensures { first_value (found_of matches.now) name.now ≡ Some result.now }
{
    matches.get_str(name).unwrap()
}

impl<'a> Values<'a> {
    // The values that the words give, or why they give none.
    pub(crate) fn from_words(
        command: &mut Command<'a>,
        words: &'a [&'a str],
    ) -> Result<Values<'a>, Error>
        requires { app_of command.old ≡ recode_app }
        ensures ok { IfOk result (HasValues (map (λ s. s.now) words.now)) }
        ensures err { IfErr result (IsEndOf (map (λ s. s.now) words.now)) }
    {
        let matches = matches(command, words)?;
        Ok(Values {
            from: value(&matches, "from"),
            to: value(&matches, "to"),
            indexes: value(&matches, "indexes"),
            mark: value(&matches, "mark"),
            unmappable: value(&matches, "unmappable"),
            pivot: value(&matches, "pivot"),
            limit: value(&matches, "limit"),
        })
    }

    // What the values stand for, or the first that stands for nothing.
    pub(crate) fn read(self) -> Result<Words<'a>, WrongValue<'a>>
        ensures ok { IfOk result (IsReading self.entry) }
        ensures err { IfErr result (λ _. HasWrongValue self.entry) }
    {
        let Some(mark) = MarkWord::from_name(self.mark) else {
            return Err(WrongValue {
                option: "--mark <MODE>",
                value: self.mark,
                possible: "sniff, remove, keep",
            });
        };
        let Some(unmappable) = PolicyWord::from_name(self.unmappable) else {
            return Err(WrongValue {
                option: "--unmappable <POLICY>",
                value: self.unmappable,
                possible: "decimal, hexadecimal, stop",
            });
        };
        let Some(pivot) = PivotWord::from_name(self.pivot) else {
            return Err(WrongValue {
                option: "--pivot <FORM>",
                value: self.pivot,
                possible: "utf8, utf16",
            });
        };
        let Some(limit) = limit_from(self.limit) else {
            return Err(WrongValue {
                option: "--limit <N>",
                value: self.limit,
                possible: "0 to 281474976710656, in decimal digits",
            });
        };
        Ok(Words {
            from: self.from,
            to: self.to,
            indexes: self.indexes,
            mark,
            unmappable,
            pivot,
            limit,
        })
    }
}
