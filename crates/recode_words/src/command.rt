//! The command line as clap is given it, with the text of the help.

ghost use Rattle.std.specs.Prelude.{◌≡◌, IfOk, false};
ghost use Rattle.clap.specs.Words.{app_of, rule_of};
ghost use Rattle.recode_words.specs.Command.{default_rule, named_app, list_rule, recode_app};
ghost use Rattle.recode_words.specs.Command.{required_rule};

use clap::{Arg, ArgAction, Command};
use std::alloc::{AllocError, Global};

/// The version of the program.
pub const VERSION: &str = "0.1.0";

const ABOUT: &str =
    "Convert standard input to another encoding on standard output, and log what is lost";

// Input and output are the standard streams, which clap's own line does not say.
const USAGE: &str = "recode [OPTIONS] --from <LABEL> --to <LABEL> < INPUT > OUTPUT";

const AFTER_HELP: &str =
    "Labels: LABEL is any label of the Encoding Standard, in upper or lower case, such as utf-8,
shift_jis or windows-1252. With --to utf-16le, utf-16be or replacement, the output is UTF-8.

Names: a label means what the standard says: iso-8859-1 and ascii are windows-1252. The encodings
nearest to iconv's CP932, CP936, CP949 and CP950 are shift_jis, gbk, euc-kr and big5. hz-gb-2312,
iso-2022-cn and iso-2022-kr are replacement, which decodes any non-empty input to one U+FFFD. A file
is UTF-8 if \"recode --from utf-8 --to utf-8 --mark keep\" exits with status 0.

Index files: most encodings need one or two tables of the standard, such as index-jis0208.txt for
shift_jis, which are not built in; a message names one that is missing. They are in the folder
\"indexes\" of the source repository, and at https://encoding.spec.whatwg.org/index-jis0208.txt and
so on. \"make install\" copies them to PREFIX/share/recode/indexes, and the command that it installs
takes them from there unless you give --indexes.

Byte order mark (BOM) at the start of the input (--mark):
  sniff   a BOM of UTF-8, UTF-16LE or UTF-16BE overrides --from, and is removed
  remove  a BOM of the encoding of --from is removed
  keep    no BOM is removed: one of the encoding of --from decodes to U+FEFF

Unmappable characters, those that the output encoding lacks (--unmappable):
  decimal      write the numeric character reference &#N;, such as &#26085;
  hexadecimal  write the numeric character reference &#xN;, such as &#x65E5;
  stop         log the first one, then stop with status 4

Log, on standard error, a line for each invalid sequence and each unmappable character:
  bad OFFSET LENGTH  LENGTH invalid bytes at offset OFFSET of the input, decoded to one U+FFFD. Only
                     UTF-8 and gb18030 can encode U+FFFD: with another output encoding a line
                     \"lost\" follows
  lost INDEX SCALAR  the character at INDEX of the decoded text, whose code point is SCALAR, is
                     unmappable; with --to iso-2022-jp, SCALAR is 65533 for U+000E, U+000F and
                     U+001B
The lines are in the order of the text. Numbers are decimal. OFFSET counts bytes from the start of
the input, including a BOM. INDEX counts code points of the text, from 0, without a removed BOM.
\"recode-places\" shows the line and column of each loss.

Exit status:
  0  everything was converted, and nothing was lost: the input has no invalid sequence, and the
     output decodes to the text of the input. Also after --help, --version and --list, even if
     printing failed
  1  everything was converted, and something was lost. The log lists it, except for one-way
     mappings: characters written as bytes that decode to others, such as U+00A5 in Shift_JIS as
     the byte 0x5C. Shift_JIS, EUC-JP, ISO-2022-JP, gb18030 and GBK have one-way mappings;
     \"recode-places --folds\" shows where they occur
  2  the arguments are invalid, or standard output is the input file
  3  an index file is missing or invalid, or memory ran out at the start
  4  reading the input, or writing the output or the log, failed; the input is longer than --limit;
     or --unmappable stop found an unmappable character
Status 0 has two limits. It does not say that --from is right: in windows-1252, for example, any
bytes are valid; \"jillapun which FILE\", of the Python package, shows the encodings in which a file
is valid. And the output is decoded as with --mark keep: text that begins with U+00EF U+00BB U+00BF
converts to windows-1252 with status 0, although a reader that sniffs takes these bytes, EF BB BF,
for the BOM of UTF-8.

Messages, at the end of standard error:
  error: TEXT                                status 2: the arguments are invalid; more lines follow
  recode: unknown label WORD                 status 2: no encoding has this label; \"recode --list\"
                                             prints all labels. A control character in WORD is shown
                                             by its number, such as <U+001B>
  recode: a word is not UTF-8                status 2: an argument is not valid UTF-8
  recode: standard output is the input file  status 2: write to another file
  recode: FILE: missing                      status 3: the index file is not in the folder of
                                             --indexes, cannot be read or has more than 2^24 bytes;
                                             set --indexes
  recode: FILE: line N: KIND                 status 3: the index file is invalid at this line: not a
                                             row (Row), its number not above the one before (Order)
                                             or outside the index (Pointer); use the standard's file
  recode: FILE: table: KIND                  status 3: the index has an invalid entry (Entry), one
                                             at a number that Shift_JIS reserves (Reserved) or
                                             invalid ranges (Ranges); use the standard's file
  recode: out of memory                      status 3: memory ran out at the start
  recode: read fault                         status 4: reading standard input failed
  recode: write fault                        status 4: writing to standard output failed
  recode: log fault                          status 4: writing to standard error failed
  recode: input too long                     status 4: the input has more than --limit bytes
  recode: unmappable INDEX SCALAR            status 4: with --unmappable stop, the character of the
                                             last line \"lost\", which has the same numbers
A second line, \"recode: REASON\", follows an unknown label (with its option), a missing index file
(with its path and the cause), and a read, write or log fault (with the stream and the error of the
system); after a broken pipe there is only the first line.";

// `--name VALUE`, which has to be there.
fn required_option<'a>(alloc: Global, name: &'a str, value_name: &'a str, help: &'a str) -> Arg<'a>
    ensures rule { rule_of result ≡ required_rule name.entry.now }
    ensures local { result.global ≡ false }
{
    Arg::new(alloc, name)
        .long(name)
        .action(ArgAction::Set)
        .value_name(value_name)
        .required(true)
        .help(help)
}

// `--name VALUE`, where `value` is the value if the option is not there.
fn default_option<'a>(
    alloc: Global,
    name: &'a str,
    value: &'a str,
    value_name: &'a str,
    help: &'a str,
) -> Arg<'a>
    ensures rule { rule_of result ≡ default_rule name.entry.now value.entry.now }
    ensures local { result.global ≡ false }
{
    Arg::new(alloc, name)
        .long(name)
        .action(ArgAction::Set)
        .value_name(value_name)
        .default_value(value)
        .help(help)
}

// `--list`, at which the parse ends, as it does at `--version`: so required options may be left
// out.
fn list_flag<'a>(alloc: Global) -> Arg<'a>
    ensures rule { rule_of result ≡ list_rule }
    ensures local { result.global ≡ false }
{
    Arg::new(alloc, "list")
        .long("list")
        .action(ArgAction::Version)
        .help("Print the encodings and their labels")
}

// The command with its texts and no options.
fn named_command<'a>(alloc: Global) -> Command<'a>
    ensures { app_of result ≡ named_app }
{
    Command::new(alloc, "recode")
        .version(VERSION)
        .about(ABOUT)
        .override_usage(USAGE)
        .after_help(AFTER_HELP)
}

// The command line of the program.
pub(crate) fn command<'a>(alloc: Global) -> Result<Command<'a>, AllocError>
    ensures { IfOk result (λ c. app_of c ≡ recode_app) }
{
    named_command(alloc)
        .arg(required_option(alloc, "from", "LABEL", "Encoding of the input"))?
        .arg(required_option(alloc, "to", "LABEL", "Encoding of the output"))?
        .arg(default_option(alloc, "indexes", ".", "DIR", "Folder of the index files"))?
        .arg(default_option(
            alloc,
            "mark",
            "sniff",
            "MODE",
            "Byte order mark: sniff, remove or keep",
        ))?
        .arg(default_option(
            alloc,
            "unmappable",
            "decimal",
            "POLICY",
            "Unmappable characters: decimal, hexadecimal or stop",
        ))?
        .arg(default_option(
            alloc,
            "pivot",
            "utf8",
            "FORM",
            "Decoded text: utf8 or utf16, with the same output",
        ))?
        .arg(default_option(
            alloc,
            "limit",
            "281474976710656",
            "N",
            "Largest input in bytes, at most the default",
        ))?
        .arg(list_flag(alloc))
}
