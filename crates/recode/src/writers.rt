//! What is held for the two writers of a conversion, of its output and of its log.

ghost use Rattle.std.specs.Prelude.{◌≡◌, ◌≤◌, take};
ghost use Rattle.recode.specs.calls.Held.{held_line_bytes};
ghost use Rattle.recode.specs.calls.Writers.{HasValidLine};

use crate::job::Fault;
use encoding_front::{Reference, write_reference};
use encoding_mem::encode::put_all;
use recode_log::line::LogLine;
use recode_log::ports::Ports;
use std::io::Write;

/// The line of a malformed sequence: the offset of its first byte, and how many bytes it has.
#[derive(Clone, Copy, PartialEq, Eq, Debug)]
pub struct MalformedLine {
    pub offset: u64,
    pub length: u8,
}

// Bytes are held here, not by a writer with a buffer of its own: that would have to know of the log
// to write the bytes that come before a line ahead of it.
/// Output that is not delivered yet: the line of a malformed sequence, and after it bytes at the
/// start of the buffer that the caller passes to each call.
///
/// It is delivered before the next line, so that each line is written after the bytes that come
/// before it; if the buffer has little room left; and at the end of a step. All bytes that are held
/// go out in one call, and so do two lines with no bytes between them.
#[derive(Clone, Copy, Debug)]
pub struct Held {
    /// The line that is held, which is written before the bytes.
    pub line: Option<MalformedLine>,
    /// How many bytes are held.
    pub len: usize,
}

impl Held {
    ghost use Rattle.std.specs.Prelude.{◌-◌, ◌^◌, ◌<◌, ◌∷◌, [], List, ℕ, map, length};
    ghost use Rattle.recode_log.specs.Counted.{failures_of};
    ghost use Rattle.std.specs.Prelude.{None, OnOk};
    ghost use Rattle.encoding_mem.specs.Coding.{reference_bytes};
    ghost use Rattle.encoding_mem.specs.Items.{Byte};
    ghost use Rattle.recode_log.specs.Line.{IsValid};
    ghost use Rattle.recode.specs.calls.Held.{item_of, log_line_of};
    ghost use Rattle.recode.specs.calls.Writers.{AreReady, HandsOn, HoldNothing, writers};

    // Delivers the line that is held, if there is one, all of it or a prefix.
    fn deliver_line<R, W: Write, L: Write>(
        &mut self,
        ports: &mut Ports<'_, '_, '_, R, W, L>,
    ) -> Result<(), Fault>
        requires valid { HasValidLine self.old.line }
        requires log { failures_of ports.old.log.now < 2 ^ 64 - 1 }
        ensures hands { (buffer : List ℕ) → AreReady (writers self.old buffer ports.old)
            → HandsOn W.contents L.contents (writers self.old buffer ports.old)
            (writers self.new buffer ports.new) [] result }
        ensures none { OnOk result (self.new.line ≡ None) }
    {
        let mut bytes = [0; 64];
        let len = put_held_line(self.line, &mut bytes);
        self.line = None;
        ports.deliver_log(&bytes[..len], Fault::Log)
    }

    /// Delivers what is held, all of it or a prefix.
    pub fn deliver_held<R, W: Write, L: Write>(
        &mut self,
        buffer: &[u8],
        ports: &mut Ports<'_, '_, '_, R, W, L>,
    ) -> Result<(), Fault>
        requires ready { AreReady (writers self.old buffer.now ports.old) }
        ensures hands { HandsOn W.contents L.contents (writers self.old buffer.now ports.old)
            (writers self.new buffer.now ports.new) [] result }
        ensures none { OnOk result (HoldNothing (writers self.new buffer.now ports.new)) }
    {
        self.deliver_line(ports)?;
        ports.deliver(&buffer[..self.len], Fault::Write)?;
        self.len = 0;
        Ok(())
    }

    /// Delivers what is held if too little room is left for some character.
    pub fn make_room<R, W: Write, L: Write>(
        &mut self,
        buffer: &[u8],
        ports: &mut Ports<'_, '_, '_, R, W, L>,
    ) -> Result<(), Fault>
        requires ready { AreReady (writers self.old buffer.now ports.old) }
        ensures hands { HandsOn W.contents L.contents (writers self.old buffer.now ports.old)
            (writers self.new buffer.now ports.new) [] result }
        ensures room { OnOk result (4 ≤ length buffer.now - self.new.len) }
    {
        if buffer.len() - self.len < 4 {
            self.deliver_held(buffer, ports)
        } else {
            Ok(())
        }
    }

    // Delivers what is held if there are bytes among it, so that no more than a line is held.
    fn deliver_bytes<R, W: Write, L: Write>(
        &mut self,
        buffer: &[u8],
        ports: &mut Ports<'_, '_, '_, R, W, L>,
    ) -> Result<(), Fault>
        requires ready { AreReady (writers self.old buffer.now ports.old) }
        ensures hands { HandsOn W.contents L.contents (writers self.old buffer.now ports.old)
            (writers self.new buffer.now ports.new) [] result }
        ensures none { OnOk result (self.new.len ≡ 0) }
    {
        if self.len == 0 {
            Ok(())
        } else {
            self.deliver_held(buffer, ports)
        }
    }

    /// Delivers what is held and writes a line to the log, all of that or a prefix. A line that is
    /// held with no bytes behind it goes in the same call.
    pub fn log_line<R, W: Write, L: Write>(
        &mut self,
        buffer: &[u8],
        ports: &mut Ports<'_, '_, '_, R, W, L>,
        line: LogLine,
    ) -> Result<(), Fault>
        requires valid { IsValid line }
        requires ready { AreReady (writers self.old buffer.now ports.old) }
        ensures hands { HandsOn W.contents L.contents (writers self.old buffer.now ports.old)
            (writers self.new buffer.now ports.new) (item_of line ∷ []) result }
        ensures none { OnOk result (HoldNothing (writers self.new buffer.now ports.new)) }
    {
        self.deliver_bytes(buffer, ports)?;
        let mut lines = [0; 64];
        let start = put_held_line(self.line, &mut lines);
        self.line = None;
        let mut bytes = [0; 32];
        let len = line.write_into(&mut bytes);
        let end = put_all(&mut lines, start, &bytes[..len]);
        ports.deliver_log(&lines[..end], Fault::Log)
    }

    /// Delivers what is held, all of it or a prefix, and holds the line of a malformed sequence.
    pub fn hold_line<R, W: Write, L: Write>(
        &mut self,
        buffer: &[u8],
        ports: &mut Ports<'_, '_, '_, R, W, L>,
        line: MalformedLine,
    ) -> Result<(), Fault>
        requires valid { IsValid (log_line_of line) }
        requires ready { AreReady (writers self.old buffer.now ports.old) }
        ensures hands { HandsOn W.contents L.contents (writers self.old buffer.now ports.old)
            (writers self.new buffer.now ports.new) (item_of (log_line_of line) ∷ []) result }
    {
        self.deliver_held(buffer, ports)?;
        self.line = Some(line);
        Ok(())
    }

    /// Holds the reference of a character that has no bytes, in this form. If the buffer has no
    /// room for it, it is delivered, after what is held, all of that or a prefix.
    pub fn put_reference<R, W: Write, L: Write>(
        &mut self,
        buffer: &mut [u8],
        ports: &mut Ports<'_, '_, '_, R, W, L>,
        c: char,
        form: Reference,
    ) -> Result<(), Fault>
        requires ready { AreReady (writers self.old buffer.old ports.old) }
        ensures hands { HandsOn W.contents L.contents (writers self.old buffer.old ports.old)
            (writers self.new buffer.new ports.new) (map Byte (reference_bytes form c)) result }
    {
        let mut bytes = [0; 10];
        let len = write_reference(c, form, &mut bytes);
        if len > buffer.len() - self.len {
            self.deliver_held(buffer, ports)?;
            ports.deliver(&bytes[..len], Fault::Write)
        } else {
            self.len = put_all(buffer, self.len, &bytes[..len]);
            Ok(())
        }
    }
}

// Writes the line that is held, if there is one, at the start of `dst`, and returns its length in
// bytes: none if no line is held.
fn put_held_line(line: Option<MalformedLine>, dst: &mut [u8; 64]) -> usize
    requires valid { HasValidLine line }
    ensures bytes { take result dst.new ≡ held_line_bytes line }
    ensures fits { result ≤ 32 }
{
    let Some(MalformedLine { offset, length }) = line else {
        return 0;
    };
    let mut bytes = [0; 32];
    let len = LogLine::Bad { offset, length }.write_into(&mut bytes);
    put_all(dst, 0, &bytes[..len])
}
