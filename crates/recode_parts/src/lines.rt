//! The lines at the start of some bytes of a log, moved.

ghost use Rattle.std.specs.Prelude.{◌≡◌, ◌≤◌, ◌==◌, ℕ, List, ◌++◌, IfNone, IfSome, None};
ghost use Rattle.std.specs.Prelude.{length, position, take};
ghost use Rattle.recode_log.specs.Line.{line_bytes};
ghost use Rattle.recode_places.specs.Logs.{CanBeLogged};
ghost use Rattle.recode_log.specs.declared.line.LogLine.{LogLine};
ghost use Rattle.recode_parts.specs.Joins.{CanBeMoved, MovesLines};

use crate::before::Before;
use recode_log::LogLine;
use recode_places::laws::{lines_are_told_apart, lines_end_in_feeds};

/// How many bytes of a log were moved, and how many they became.
#[derive(Clone, Copy)]
pub(crate) struct Moved {
    pub(crate) read: usize,
    pub(crate) written: usize,
}

// Where the first line feed stands.
fn first_feed(bytes: &[u8]) -> Option<usize>
    ensures { result ≡ position (λ byte. byte == 10) bytes.now }
{
    bytes.iter().position(|byte| *byte == b'\n')
}

// The line that some bytes are.
fn logged_line(bytes: &[u8]) -> Option<LogLine>
    ensures logged { IfSome result CanBeLogged }
    ensures line { IfSome result (λ line. line_bytes line ≡ bytes.now) }
    ensures none { IfNone result ((line : LogLine) → CanBeLogged line
        → ¬ (line_bytes line ≡ bytes.now)) }
{
    LogLine::parse(bytes)
}

/// Moves whole lines from the start of `bytes` to the start of `dst`: at least one, if one ends
/// there. `None` if one of them is no line of a log, or can't be moved.
pub(crate) fn move_lines(bytes: &[u8], before: Before, dst: &mut [u8]) -> Option<Moved>
    requires { 32 ≤ length dst.old }
    ensures lines { IfSome result (λ m. MovesLines before.bytes before.characters
        (take m.read bytes.now) (take m.written dst.new)) }
    ensures read { IfSome result (λ m. m.read ≤ length bytes.now) }
    ensures written { IfSome result (λ m. m.written ≤ length dst.new) }
    ensures some { IfSome result (λ m. m.read ≡ 0
        → position (λ byte. byte == 10) bytes.now ≡ None) }
    ensures none { IfNone result ((more : List ℕ)
        → ¬ (CanBeMoved before.bytes before.characters (bytes.now ++ more))) }
{
    lines_are_told_apart();
    lines_end_in_feeds();
    let mut read = 0;
    let mut written = 0;
    while dst.len() - written >= 32 {
        let Some(end) = first_feed(&bytes[read..]) else {
            return Some(Moved { read, written });
        };
        let len = end + 1;
        let line = before.line_in_whole(logged_line(&bytes[read..read + len])?)?;
        let mut text = [0; 32];
        let size = line.write_into(&mut text);
        dst[written..written + size].copy_from_slice(&text[..size]);
        read += len;
        written += size;
    }
    Some(Moved { read, written })
}
