//! Readers and writers whose failed calls are counted. Bytes that are handed to a writer, which
//! takes all of them or a prefix.

ghost use Rattle.std.specs.Prelude.{◌≤◌, IfOk};

use recode_log::counted::Counted;
use recode_log::deliver::deliver;
use std::io;
use std::io::{ErrorKind, Read, Write};
use std::test::Fail;

#[derive(Drop)]
enum Answer {
    Moves(usize),
    Fails(ErrorKind),
}

// A device that returns the next of its answers at each call. After the last answer it moves no
// bytes. It keeps the length of the buffer of its last call.
#[derive(Drop)]
struct Scripted<'a> {
    answers: &'a [Answer],
    calls: usize,
    room: usize,
}

impl<'a> Scripted<'a> {
    fn new(answers: &'a [Answer]) -> Scripted<'a> {
        Scripted {
            answers,
            calls: 0,
            room: 0,
        }
    }

    // How many calls were made, and the length of the last buffer.
    fn last_call(&self) -> (usize, usize) {
        (self.calls, self.room)
    }

    fn answer(&mut self, room: usize) -> io::Result<usize>
        ensures { IfOk result (λ n. n ≤ room) }
    {
        let answer = self.answers.get(self.calls);
        self.calls = self.calls.saturating_add(1);
        self.room = room;
        match answer {
            Some(Answer::Moves(count)) => Ok((*count).min(room)),
            Some(Answer::Fails(kind)) => Err(io::Error::from(*kind)),
            None => Ok(0),
        }
    }
}

impl<'a> Read for Scripted<'a> {
    fn read(&mut self, buf: &mut [u8]) -> io::Result<usize> {
        let count = self.answer(buf.len())?;
        buf[..count].fill(b'x');
        Ok(count)
    }
}

impl<'a> Write for Scripted<'a> {
    fn write(&mut self, buf: &[u8]) -> io::Result<usize> {
        self.answer(buf.len())
    }

    fn flush(&mut self) -> io::Result<()> {
        self.answer(0)?;
        Ok(())
    }
}

fn kind_of<T: Drop>(answer: io::Result<T>) -> Option<ErrorKind> {
    Some(answer.err()?.kind())
}

#[test]
fn a_read_hands_on_its_answer_and_counts_an_error(rt: HostRuntime) -> Result<(), Fail> {
    let answers = [
        Answer::Moves(2),
        Answer::Fails(ErrorKind::Interrupted),
        Answer::Moves(usize::MAX),
        Answer::Moves(0),
        Answer::Fails(ErrorKind::BrokenPipe),
    ];
    let mut reader = Counted::new(Scripted::new(&answers));
    let mut room = *b"....";
    assert_eq!(rt; reader.read(&mut room)?, 2);
    assert_eq!(rt; room, *b"xx..");
    assert_eq!(rt; reader.failures(), 0);
    assert_eq!(rt;
        kind_of(reader.read(&mut room)),
        Some(ErrorKind::Interrupted)
    );
    assert_eq!(rt; reader.failures(), 1);
    assert_eq!(rt; reader.read(&mut room)?, 4);
    assert_eq!(rt; reader.read(&mut room)?, 0);
    assert_eq!(rt; reader.failures(), 1);
    assert_eq!(rt;
        kind_of(reader.read(&mut room)),
        Some(ErrorKind::BrokenPipe)
    );
    assert_eq!(rt; reader.failures(), 2);
    assert_eq!(rt; reader.into_inner().calls, 5);
    Ok(())
}

#[test]
fn a_write_of_some_bytes_that_takes_none_is_counted(rt: HostRuntime) -> Result<(), Fail> {
    let answers = [
        Answer::Moves(2),
        Answer::Moves(usize::MAX),
        Answer::Moves(0),
        Answer::Moves(0),
        Answer::Fails(ErrorKind::Interrupted),
    ];
    let mut writer = Counted::new(Scripted::new(&answers));
    assert_eq!(rt; writer.write(b"abc")?, 2);
    assert_eq!(rt; writer.write(b"abc")?, 3);
    assert_eq!(rt; writer.failures(), 0);
    assert_eq!(rt; writer.write(b"")?, 0);
    assert_eq!(rt; writer.failures(), 0);
    assert_eq!(rt; writer.write(b"abc")?, 0);
    assert_eq!(rt; writer.failures(), 1);
    assert_eq!(rt; kind_of(writer.write(b"abc")), Some(ErrorKind::Interrupted));
    assert_eq!(rt; writer.failures(), 2);
    assert_eq!(rt; writer.get_ref().calls, 5);
    Ok(())
}

#[test]
fn a_failing_flush_is_counted(rt: HostRuntime) -> Result<(), Fail> {
    let answers = [Answer::Moves(0), Answer::Fails(ErrorKind::StorageFull)];
    let mut writer = Counted::new(Scripted::new(&answers));
    writer.flush()?;
    assert_eq!(rt; writer.failures(), 0);
    assert_eq!(rt; kind_of(writer.flush()), Some(ErrorKind::StorageFull));
    assert_eq!(rt; writer.failures(), 1);
    assert_eq!(rt; writer.get_ref().calls, 2);
    Ok(())
}

// Each kind of error that std has.
const KINDS: [ErrorKind; 42] = [
    ErrorKind::NotFound,
    ErrorKind::PermissionDenied,
    ErrorKind::ConnectionRefused,
    ErrorKind::ConnectionReset,
    ErrorKind::HostUnreachable,
    ErrorKind::NetworkUnreachable,
    ErrorKind::ConnectionAborted,
    ErrorKind::NotConnected,
    ErrorKind::AddrInUse,
    ErrorKind::AddrNotAvailable,
    ErrorKind::NetworkDown,
    ErrorKind::BrokenPipe,
    ErrorKind::AlreadyExists,
    ErrorKind::WouldBlock,
    ErrorKind::NotADirectory,
    ErrorKind::IsADirectory,
    ErrorKind::DirectoryNotEmpty,
    ErrorKind::ReadOnlyFilesystem,
    ErrorKind::FilesystemLoop,
    ErrorKind::StaleNetworkFileHandle,
    ErrorKind::InvalidInput,
    ErrorKind::InvalidData,
    ErrorKind::TimedOut,
    ErrorKind::WriteZero,
    ErrorKind::StorageFull,
    ErrorKind::NotSeekable,
    ErrorKind::QuotaExceeded,
    ErrorKind::FileTooLarge,
    ErrorKind::ResourceBusy,
    ErrorKind::ExecutableFileBusy,
    ErrorKind::Deadlock,
    ErrorKind::CrossesDevices,
    ErrorKind::TooManyLinks,
    ErrorKind::InvalidFilename,
    ErrorKind::ArgumentListTooLong,
    ErrorKind::Interrupted,
    ErrorKind::Unsupported,
    ErrorKind::UnexpectedEof,
    ErrorKind::OutOfMemory,
    ErrorKind::InProgress,
    ErrorKind::Other,
    ErrorKind::Uncategorized,
];

#[test]
fn a_call_is_made_once_with_the_whole_buffer(rt: HostRuntime) -> Result<(), Fail> {
    let mut room = [b'.'; 100_000];
    for kind in KINDS {
        let answers = [
            Answer::Fails(kind),
            Answer::Moves(usize::MAX),
            Answer::Fails(kind),
            Answer::Moves(usize::MAX),
            Answer::Fails(kind),
            Answer::Moves(0),
        ];
        let mut device = Counted::new(Scripted::new(&answers));
        assert_eq!(rt; kind_of(device.read(&mut room)), Some(kind));
        assert_eq!(rt; device.get_ref().last_call(), (1, 100_000), "{kind}");
        assert_eq!(rt; device.read(&mut room)?, 100_000);
        assert_eq!(rt; device.get_ref().last_call(), (2, 100_000), "{kind}");
        assert_eq!(rt; kind_of(device.write(&room)), Some(kind));
        assert_eq!(rt; device.get_ref().last_call(), (3, 100_000), "{kind}");
        assert_eq!(rt; device.write(&room)?, 100_000);
        assert_eq!(rt; device.get_ref().last_call(), (4, 100_000), "{kind}");
        assert_eq!(rt; kind_of(device.flush()), Some(kind));
        assert_eq!(rt; device.get_ref().last_call(), (5, 0), "{kind}");
        device.flush()?;
        assert_eq!(rt; device.get_ref().last_call(), (6, 0), "{kind}");
        assert_eq!(rt; device.failures(), 3, "{kind}");
    }
    Ok(())
}

// A writer that takes one byte a call. At the call `cut`, counted from 1, it fails or takes none.
#[derive(Drop)]
struct OneByOne {
    taken: Vec<u8>,
    calls: usize,
    cut: usize,
    fails: bool,
}

impl Write for OneByOne {
    fn write(&mut self, buf: &[u8]) -> io::Result<usize> {
        self.calls = self.calls.saturating_add(1);
        match buf.first() {
            Some(byte) if self.calls != self.cut => {
                self.taken.push(*byte)?;
                Ok(1)
            }
            Some(_) if self.fails => Err(io::Error::from(ErrorKind::Interrupted)),
            _ => Ok(0),
        }
    }

    fn flush(&mut self) -> io::Result<()> {
        Ok(())
    }
}

#[test]
fn a_delivery_stops_at_the_first_failed_call(rt: HostRuntime) {
    for fails in [true, false] {
        for (cut, taken, calls) in [(1, "", 1), (2, "a", 2), (3, "ab", 3), (4, "abc", 3)] {
            let mut writer = Counted::new(OneByOne {
                taken: Vec::new(rt.alloc()),
                calls: 0,
                cut,
                fails,
            });
            let want = if cut == 4 { Ok(()) } else { Err('w') };
            assert_eq!(rt; deliver(&mut writer, b"abc", 'w'), want, "cut at {cut}");
            assert_eq!(rt; writer.failures(), u64::from(cut < 4), "cut at {cut}");
            let inner = writer.into_inner();
            assert_eq!(rt; inner.taken.as_slice(), taken.as_bytes(), "cut at {cut}");
            assert_eq!(rt; inner.calls, calls, "cut at {cut}");
        }
    }
}

#[test]
fn a_delivery_makes_no_call_but_those_it_needs(rt: HostRuntime) {
    let answers = [Answer::Moves(usize::MAX)];
    let mut writer = Counted::new(Scripted::new(&answers));
    assert_eq!(rt; deliver(&mut writer, b"", 'w'), Ok(()));
    assert_eq!(rt; writer.get_ref().calls, 0);
    assert_eq!(rt; writer.failures(), 0);
    assert_eq!(rt; deliver(&mut writer, b"abc", 'w'), Ok(()));
    assert_eq!(rt; writer.failures(), 0);
    assert_eq!(rt; writer.into_inner().calls, 1);
}
