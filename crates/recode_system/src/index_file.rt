//! The bytes of an index file, read whole.

ghost use Rattle.std.specs.Prelude.{◌≡◌, ◌≤◌, ◌^◌, [], IfOk, IfSome, vec_len};

use std::alloc::{AllocError, Global};
use std::io;
use std::io::{ErrorKind, Read};
use thiserror::Error;

// The most bytes that an index file may have: 2^24. The longest of the standard has about a
// twentieth of them.
const GREATEST_INDEX_FILE: usize = 16777216;

// Why an index file is not read.
#[derive(Debug, Drop, Error)]
pub(crate) enum Unread {
    // The system refused to open or to read it.
    #[error("{0}")]
    System(io::Error),
    #[error("longer than {most} bytes", most = GREATEST_INDEX_FILE)]
    TooLong,
    #[error("out of memory")]
    Memory,
}

impl From<io::Error> for Unread {
    fn from(error: io::Error) -> Unread {
        if error.kind() == ErrorKind::OutOfMemory {
            Unread::Memory
        } else {
            Unread::System(error)
        }
    }
}

// The room that is asked for before an index file is read. The three longest files of the standard
// have more: under these the vector grows, to twice and to four times as much. So the text of a
// second index finds room where the first one's was, between the tables that stand there by then.
const FIRST_ROOM: usize = 327680;

// More than four times that room.
const LARGEST_ROOM: usize = 2097152;

// A vector with the first room. The largest is asked for before, and given back. A C library that
// takes blocks of this size from the system, as glibc does, keeps them from then on, so the next
// file is read to where the first one's text was. A page that is new costs more than what is
// written to it.
fn empty_text(alloc: Global) -> Result<Vec<u8>, AllocError>
    ensures items { IfOk result (λ bytes. bytes.items ≡ []) }
    ensures len { IfOk result (λ bytes. vec_len bytes ≡ 0) }
{
    let room: Vec<u8> = Vec::with_capacity(alloc, LARGEST_ROOM)?;
    drop(room);
    Vec::with_capacity(alloc, FIRST_ROOM)
}

// How many bytes a read gives at most. `read_to_end` writes zeros where it will read to, in 8 KiB
// at first and in twice as many after each read that gave all that was asked for. With a byte less
// it keeps to 8 KiB, which are still in the fastest memory when the bytes come over them, and the
// memory after a file stays untouched.
const MOST_AT_ONCE: usize = 8191;

// A reader that gives what another one does, in short reads.
#[derive(Drop)]
struct ShortReads<R> {
    inner: R,
}

impl<R: Read> Read for ShortReads<R> {
    ghost remaining = { λ s. R.remaining s.inner };

    fn read(&mut self, buf: &mut [u8]) -> io::Result<usize> {
        let most = buf.len().min(MOST_AT_ONCE);
        self.inner.read(&mut buf[..most])
    }
}

/// All bytes that the reader gives. The error is `TooLong` if there are more than
/// `GREATEST_INDEX_FILE`, of which one more at most is read.
pub(crate) fn read_index_file<R: Read + Drop>(alloc: Global, reader: R) -> Result<Vec<u8>, Unread>
    ensures whole { IfOk result (λ bytes. IfSome (R.remaining reader) (λ all. bytes.items ≡ all)) }
    ensures size { IfOk result (λ bytes. vec_len bytes ≤ 2 ^ 24) }
{
    let Ok(mut bytes) = empty_text(alloc) else {
        return Err(Unread::Memory);
    };
    let short = ShortReads { inner: reader };
    match short
        .take(GREATEST_INDEX_FILE as u64 + 1)
        .read_to_end(&mut bytes)
    {
        Ok(count) if count <= GREATEST_INDEX_FILE => Ok(bytes),
        Ok(_) => Err(Unread::TooLong),
        Err(error) => Err(Unread::from(error)),
    }
}
