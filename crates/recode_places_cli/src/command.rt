//! The command line as clap is given it, with the text of the help.

use clap::{Arg, ArgAction, Command};
use recode_words::VERSION;
use std::alloc::{AllocError, Global};

const ABOUT: &str =
    "Show the line and column of each loss in a log of recode, which is read from standard input";

// The log is standard input, which clap's own line does not say.
const USAGE: &str = "recode-places [OPTIONS] --from <LABEL> --to <LABEL> <INPUT> < LOG";

const AFTER_HELP: &str =
    "Use: \"recode-places --from utf-8 --to windows-1252 old.csv < log\" shows what was lost by
\"recode --from utf-8 --to windows-1252 < old.csv > new.csv 2> log\". INPUT is read again: it must
be the file that was converted, unchanged, and not a pipe. Give --from, --to, --mark and --indexes
as in that run; \"recode --help\" explains them.

Output, on standard output, three lines for each place:
  FILE:LINE:COLUMN: LOSS  where it is, and what is lost there
  LINE | TEXT             the line around it: at most 48 characters before it, 24 from it on
  | ^                     carets under what is lost
If not all places are shown, a last line says how many there are. Lines and columns count from 1,
and a line ends with U+000A. A column counts characters, and an invalid sequence as one. Some
editors count columns differently (vim counts bytes), but lines alike: \"vim +LINE FILE\". In TEXT,
a tab is shown as one space, an invalid byte as <FF>, and a control character, or one that is
invisible or changes the direction of the text, by its number, such as <U+202E>.

Kinds of loss:
  has no bytes in ENCODING                         unmappable character: recode wrote a numeric
                                                   character reference, such as &#26085;
  in no character of ENCODING                      invalid sequence: recode wrote U+FFFD, or a
                                                   numeric character reference to it
  is written as U+N in ENCODING                    one-way mapping: its bytes decode to that
                                                   character
  is written as bytes of another text in ENCODING  one-way mapping: its bytes do not decode to a
                                                   single character

Log: each line is reported, except that a line \"bad\" and the line \"lost\" for its U+FFFD are
reported as one. Part of a log works, too, such as the output of grep or head. An incomplete last
line is ignored. A message of recode (a line that begins with \"recode: \" or \"error:\") ends the
log: recode-places copies it to standard error and exits with status 4. With --no-log, recode-places
reads no log and reports what recode would log. One-way mappings are not in the log: if recode had
status 1 and its log is empty, --folds shows them.

Exit status:
  0  there was nothing to report. Also after --help and --version, even if printing failed
  1  at least one place was reported or counted
  2  the arguments are invalid
  3  INPUT or an index file is missing, an index file is invalid, or memory ran out at the start
  4  a read or a write failed, memory ran out, the input is too long, a line of the log does not
     match this input in these encodings, or the log ends with a message of recode; the places
     reported before that are correct
Status 0 does not say that --from is right, and without --folds it says nothing about one-way
mappings.

Messages, at the end of standard error:
  error: TEXT                                            status 2: the arguments are invalid; more
                                                         lines follow
  recode-places: unknown label WORD                      status 2: no encoding has this label;
                                                         \"recode --list\" prints all labels
  recode-places: a word is not UTF-8                     status 2: an argument is not valid UTF-8
  recode-places: INPUT: missing                          status 3: INPUT cannot be opened
  recode-places: FILE: missing                           status 3: as for recode; set --indexes
  recode-places: FILE: line N: KIND                      status 3: as for recode
  recode-places: FILE: table: KIND                       status 3: as for recode
  recode-places: out of memory                           status 3 at the start, 4 later
  recode: TEXT or error: TEXT                            status 4: copied from the end of the log
  recode-places: read fault                              status 4: reading INPUT failed
  recode-places: log: read fault                         status 4: reading standard input failed
  recode-places: write fault                             status 4: writing to standard output failed
  recode-places: input too long                          status 4: INPUT has more than 2^48 bytes
  recode-places: line N of the log is not of this input  status 4: INPUT or an option is not that of
                                                         the run, or the line is damaged or out of
                                                         order";

// `--name VALUE`, which has to be there.
fn required_option<'a>(
    alloc: Global,
    name: &'a str,
    value_name: &'a str,
    help: &'a str,
) -> Arg<'a> {
    Arg::new(alloc, name)
        .long(name)
        .action(ArgAction::Set)
        .value_name(value_name)
        .required(true)
        .help(help)
}

// `--name VALUE`, where `value` is the value if the option is not there.
fn default_option<'a>(
    alloc: Global,
    name: &'a str,
    value: &'a str,
    value_name: &'a str,
    help: &'a str,
) -> Arg<'a> {
    Arg::new(alloc, name)
        .long(name)
        .action(ArgAction::Set)
        .value_name(value_name)
        .default_value(value)
        .help(help)
}

// `--name`, which is there or not.
fn flag<'a>(alloc: Global, name: &'a str, help: &'a str) -> Arg<'a> {
    Arg::new(alloc, name)
        .long(name)
        .action(ArgAction::SetTrue)
        .help(help)
}

// The file that was converted, which has to be there.
fn input<'a>(alloc: Global) -> Arg<'a> {
    Arg::new(alloc, "INPUT")
        .action(ArgAction::Set)
        .required(true)
        .help("File that recode converted")
}

// The command line of the program.
pub(crate) fn command<'a>(alloc: Global) -> Result<Command<'a>, AllocError> {
    Command::new(alloc, "recode-places")
        .version(VERSION)
        .about(ABOUT)
        .override_usage(USAGE)
        .after_help(AFTER_HELP)
        .arg(input(alloc))?
        .arg(required_option(alloc, "from", "LABEL", "Encoding of the input"))?
        .arg(required_option(alloc, "to", "LABEL", "Encoding of the output"))?
        .arg(default_option(alloc, "indexes", ".", "DIR", "Folder of the index files"))?
        .arg(default_option(
            alloc,
            "mark",
            "sniff",
            "MODE",
            "Byte order mark: sniff, remove or keep",
        ))?
        .arg(flag(
            alloc,
            "folds",
            "Also report one-way mappings: characters that read back as others",
        ))?
        .arg(flag(
            alloc,
            "no-log",
            "Do not read a log; report what recode would log",
        ))?
        .arg(default_option(alloc, "most", "20", "N", "Show at most N places"))?
        .arg(flag(
            alloc,
            "count",
            "Report what is lost and how often, but not where",
        ))
}
