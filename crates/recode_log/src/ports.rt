//! A reader, a writer and a log with one journal of their calls. Each call that is made of them here
//! is in it.

ghost use Rattle.std.specs.Prelude.{◌≡◌, ℕ, ◌+◌, ◌-◌, ◌^◌, ◌<◌, [], ◌++◌, take, length};
ghost use Rattle.std.specs.Prelude.{IsOk, OnOk, OnErr, IfErr};
ghost use Rattle.std.specs.Io.{ReadsAtMost};
ghost use Rattle.std.specs.Io.KnownBytes.{Appends, Keeps, ReadConsumes};
ghost use Rattle.recode_log.specs.Call.{CallsOnce, EndsInFailedWrite, FlushesOnce};
ghost use Rattle.recode_log.specs.Counted.{OffersAll, TellsMessage, inner_of, failures_of};
ghost use Rattle.recode_log.specs.Counted.{history_of, passed_of};
ghost use Rattle.recode_log.specs.Journal.{log_calls, reader_calls, writer_calls};
ghost use Rattle.recode_log.specs.Told.{TellsTaken};
ghost use Rattle.recode_log.specs.calls.CallCode.{calls_set};

use crate::counted::Counted;
use crate::deliver::{deliver, tell};
use crate::journal::Journal;
use std::io;
use std::io::{Read, Write};

/// A reader, a writer of output and a log, and one journal of their calls, in their one order.
///
/// Each function calls one of the three, and puts its calls at the end of the journal. Nothing else
/// can reach them or the journal, which takes no memory: only clauses read it. The history of each
/// device is what the journal has of it.
#[derive(Drop)]
pub struct Ports<'r, 'w, 'l, R, W, L> {
    reader: &'r mut Counted<R>,
    writer: &'w mut Counted<W>,
    log: &'l mut Counted<L>,
    journal: Journal,
    pub ghost of_reader: { reader_calls journal.entries ≡ history_of reader.now } by { calls_set _ _ },
    pub ghost of_writer: { writer_calls journal.entries ≡ history_of writer.now } by { calls_set _ _ },
    pub ghost of_log: { log_calls journal.entries ≡ history_of log.now } by { calls_set _ _ },
}

impl<'r, 'w, 'l, R, W, L> Ports<'r, 'w, 'l, R, W, L> {
    ghost use Rattle.recode_log.specs.Ports.{journal_of};

    /// Borrows a reader, a writer and a log. The journal begins with the calls that were made of
    /// each before.
    pub fn new(
        reader: &'r mut Counted<R>,
        writer: &'w mut Counted<W>,
        log: &'l mut Counted<L>,
    ) -> Ports<'r, 'w, 'l, R, W, L>
        ensures reader { result.reader.now ≡ reader.old }
        ensures writer { result.writer.now ≡ writer.old }
        ensures log { result.log.now ≡ log.old }
        ensures same_reader { result.reader.ghost_name ≡ reader.entry.ghost_name }
        ensures same_writer { result.writer.ghost_name ≡ writer.entry.ghost_name }
        ensures same_log { result.log.ghost_name ≡ log.entry.ghost_name }
    {
        let journal = Journal::new();
        let read = journal.and_reader(reader.history());
        let written = read.and_writer(writer.history());
        let logged = written.and_log(log.history());
        Ports {
            reader,
            writer,
            log,
            journal: logged,
        }
    }

    /// The reader.
    pub fn reader(&self) -> &Counted<R>
        ensures { result.now ≡ self.now.reader.now }
    {
        self.reader
    }

    /// The writer of the output.
    pub fn writer(&self) -> &Counted<W>
        ensures { result.now ≡ self.now.writer.now }
    {
        self.writer
    }

    /// The log.
    pub fn log(&self) -> &Counted<L>
        ensures { result.now ≡ self.now.log.now }
    {
        self.log
    }
}

impl<R: Read, W, L> Ports<'_, '_, '_, R, W, L> {
    ghost use Rattle.recode_log.specs.Ports.{CallsReader};

    /// Calls the reader once, as `Counted::read` does.
    pub fn read(&mut self, buf: &mut [u8]) -> io::Result<usize>
        requires { failures_of self.old.reader.now < 2 ^ 64 - 1 }
        ensures bound { ReadsAtMost result buf.new }
        ensures bytes { ReadConsumes (R.remaining (inner_of self.old.reader.now))
            (R.remaining (inner_of self.new.reader.now)) result buf.new }
        ensures call { CallsOnce (history_of self.old.reader.now) (history_of self.new.reader.now) result
            buf.new }
        ensures ok { OnOk result (failures_of self.new.reader.now ≡ failures_of self.old.reader.now) }
        ensures err { OnErr result
            (failures_of self.new.reader.now ≡ failures_of self.old.reader.now + 1) }
        ensures journal { CallsReader self.old self.new }
    {
        let given = self.reader.read(buf);
        self.journal = self.journal.and_reader(self.reader.history());
        given
    }
}

impl<R, W: Write, L> Ports<'_, '_, '_, R, W, L> {
    ghost use Rattle.recode_log.specs.Ports.{CallsWriter};

    /// Writes all of the bytes to the output, or a prefix, as `deliver` does.
    pub fn deliver<F: Drop>(&mut self, bytes: &[u8], fault: F) -> Result<(), F>
        requires { failures_of self.old.writer.now < 2 ^ 64 - 1 }
        ensures ok { OnOk result (
            Appends (W.contents (inner_of self.old.writer.now)) (W.contents (inner_of self.new.writer.now))
            bytes.now
            × (failures_of self.new.writer.now ≡ failures_of self.old.writer.now)
            × (passed_of self.new.writer.now ≡ passed_of self.old.writer.now ++ bytes.now)) }
        ensures err { OnErr result ((n : ℕ) × (n < length bytes.now)
            × Appends (W.contents (inner_of self.old.writer.now))
            (W.contents (inner_of self.new.writer.now)) (take n bytes.now)
            × (failures_of self.new.writer.now ≡ failures_of self.old.writer.now + 1)
            × (passed_of self.new.writer.now ≡ passed_of self.old.writer.now ++ take n bytes.now)) }
        ensures failed { OnErr result (EndsInFailedWrite (history_of self.new.writer.now)) }
        ensures offers { OffersAll self.old.writer.now self.new.writer.now (length bytes.now) }
        ensures fault { IfErr result (λ f. f ≡ fault) }
        ensures empty { bytes.now ≡ [] → IsOk result × (self.new.writer.now ≡ self.old.writer.now) }
        ensures journal { CallsWriter self.old self.new }
    {
        let delivered = deliver(self.writer, bytes, fault);
        self.journal = self.journal.and_writer(self.writer.history());
        delivered
    }

    /// Writes a message to the output, as `tell` does.
    pub fn tell(&mut self, message: &[u8])
        requires { failures_of self.old.writer.now < 2 ^ 64 - 1 }
        ensures tells { TellsMessage self.old.writer.now self.new.writer.now message.now }
        ensures told { TellsTaken (passed_of self.old.writer.now) (passed_of self.new.writer.now)
            (W.contents (inner_of self.old.writer.now)) (W.contents (inner_of self.new.writer.now)) }
        ensures journal { CallsWriter self.old self.new }
    {
        tell(self.writer, message);
        self.journal = self.journal.and_writer(self.writer.history());
    }

    /// Flushes the output once, as `Counted::flush` does.
    pub fn flush(&mut self) -> io::Result<()>
        requires { failures_of self.old.writer.now < 2 ^ 64 - 1 }
        ensures bytes { Keeps (W.contents (inner_of self.old.writer.now))
            (W.contents (inner_of self.new.writer.now)) }
        ensures call { FlushesOnce (history_of self.old.writer.now) (history_of self.new.writer.now)
            result }
        ensures ok { OnOk result (failures_of self.new.writer.now ≡ failures_of self.old.writer.now) }
        ensures err { OnErr result
            (failures_of self.new.writer.now ≡ failures_of self.old.writer.now + 1) }
        ensures journal { CallsWriter self.old self.new }
    {
        let flushed = self.writer.flush();
        self.journal = self.journal.and_writer(self.writer.history());
        flushed
    }
}

impl<R, W, L: Write> Ports<'_, '_, '_, R, W, L> {
    ghost use Rattle.recode_log.specs.Ports.{CallsLog};

    /// Writes all of the bytes to the log, or a prefix, as `deliver` does.
    pub fn deliver_log<F: Drop>(&mut self, bytes: &[u8], fault: F) -> Result<(), F>
        requires { failures_of self.old.log.now < 2 ^ 64 - 1 }
        ensures ok { OnOk result (
            Appends (L.contents (inner_of self.old.log.now)) (L.contents (inner_of self.new.log.now))
            bytes.now
            × (failures_of self.new.log.now ≡ failures_of self.old.log.now)
            × (passed_of self.new.log.now ≡ passed_of self.old.log.now ++ bytes.now)) }
        ensures err { OnErr result ((n : ℕ) × (n < length bytes.now)
            × Appends (L.contents (inner_of self.old.log.now)) (L.contents (inner_of self.new.log.now))
            (take n bytes.now)
            × (failures_of self.new.log.now ≡ failures_of self.old.log.now + 1)
            × (passed_of self.new.log.now ≡ passed_of self.old.log.now ++ take n bytes.now)) }
        ensures failed { OnErr result (EndsInFailedWrite (history_of self.new.log.now)) }
        ensures offers { OffersAll self.old.log.now self.new.log.now (length bytes.now) }
        ensures fault { IfErr result (λ f. f ≡ fault) }
        ensures empty { bytes.now ≡ [] → IsOk result × (self.new.log.now ≡ self.old.log.now) }
        ensures journal { CallsLog self.old self.new }
    {
        let delivered = deliver(self.log, bytes, fault);
        self.journal = self.journal.and_log(self.log.history());
        delivered
    }

    /// Writes a message to the log, as `tell` does.
    pub fn tell_log(&mut self, message: &[u8])
        requires { failures_of self.old.log.now < 2 ^ 64 - 1 }
        ensures tells { TellsMessage self.old.log.now self.new.log.now message.now }
        ensures told { TellsTaken (passed_of self.old.log.now) (passed_of self.new.log.now)
            (L.contents (inner_of self.old.log.now)) (L.contents (inner_of self.new.log.now)) }
        ensures journal { CallsLog self.old self.new }
    {
        tell(self.log, message);
        self.journal = self.journal.and_log(self.log.history());
    }

    /// Flushes the log once, as `Counted::flush` does.
    pub fn flush_log(&mut self) -> io::Result<()>
        requires { failures_of self.old.log.now < 2 ^ 64 - 1 }
        ensures bytes { Keeps (L.contents (inner_of self.old.log.now))
            (L.contents (inner_of self.new.log.now)) }
        ensures call { FlushesOnce (history_of self.old.log.now) (history_of self.new.log.now) result }
        ensures ok { OnOk result (failures_of self.new.log.now ≡ failures_of self.old.log.now) }
        ensures err { OnErr result (failures_of self.new.log.now ≡ failures_of self.old.log.now + 1) }
        ensures journal { CallsLog self.old self.new }
    {
        let flushed = self.log.flush();
        self.journal = self.journal.and_log(self.log.history());
        flushed
    }
}
