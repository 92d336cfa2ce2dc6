//! Readers and writers that fail at a call of theirs, at each in turn.
use crate::devices::{FAULTS, answered};
use scripts::{script, status};
use std::alloc::{AllocError, Global};
use std::io;
use std::io::{Error, ErrorKind, Read, Write};

/// The most bytes that a read gives, or a write takes.
const AT_ONCE: usize = 16;

/// Calls of a device, of which one fails.
#[derive(Clone, Copy)]
struct Calls {
    /// How many succeed before it; none is left once it has failed.
    left: u64,
    has_failed: bool,
    kind: ErrorKind,
}

impl Calls {
    /// Those of which this many succeed.
    fn after(left: u64, kind: ErrorKind) -> Calls {
        Calls {
            left,
            has_failed: false,
            kind,
        }
    }

    /// One call more: whether it is the one that fails. Those behind it succeed, so that a failure that is passed over
    /// shows.
    fn count(&mut self) -> io::Result<()> {
        if self.left > 0 || self.has_failed {
            self.left = self.left.saturating_sub(1);
            return Ok(());
        }
        self.has_failed = true;
        Err(Error::from(self.kind))
    }
}

/// Gives its text piece by piece.
#[derive(Drop)]
struct FailingReader<'a> {
    left: &'a [u8],
    calls: Calls,
}

impl Read for FailingReader<'_> {
    fn read(&mut self, buf: &mut [u8]) -> io::Result<usize> {
        self.calls.count()?;
        let count = self.left.len().min(buf.len()).min(AT_ONCE);
        let (given, left) = self.left.split_at(count);
        buf[..count].copy_from_slice(given);
        self.left = left;
        Ok(count)
    }
}

/// Takes what is written piece by piece.
#[derive(Drop)]
struct FailingWriter {
    taken: Vec<u8>,
    calls: Calls,
}

impl Write for FailingWriter {
    fn write(&mut self, buf: &[u8]) -> io::Result<usize> {
        self.calls.count()?;
        let count = buf.len().min(AT_ONCE);
        self.taken.extend_from_slice(&buf[..count])?;
        Ok(count)
    }

    fn flush(&mut self) -> io::Result<()> {
        self.calls.count()
    }
}

/// What is seen of a device: whether its call failed, the exit status, and whether what was written is what is to be
/// then.
type Seen = (bool, u8, bool);

/// Puts a line after what waits for each call of a reader and of a writer whose failure is answered otherwise than it
/// is to be. `answer` is what the script is answered, with its exit status.
pub(crate) fn push_unlike(
    alloc: Global,
    script: &[u8],
    answer: (&[u8], u8),
    waiting: &mut Vec<u8>,
) -> Result<(), AllocError> {
    for kind in FAULTS {
        push_unlike_reads(alloc, script, kind, answer, waiting)?;
        push_unlike_writes(alloc, script, kind, answer, waiting)?;
    }
    Ok(())
}

/// The most calls that a device has.
const MOST_CALLS: u64 = 1000;

/// Where a read fails nothing is written.
fn push_unlike_reads(
    alloc: Global,
    script: &[u8],
    kind: ErrorKind,
    (answer, number): (&[u8], u8),
    waiting: &mut Vec<u8>,
) -> Result<(), AllocError> {
    for before in 0..MOST_CALLS {
        let mut reader = FailingReader {
            left: script,
            calls: Calls::after(before, kind),
        };
        let seen = answered(alloc, &mut reader);
        if !reader.calls.has_failed {
            let is_whole = seen.0.as_slice() == answer;
            return push_unless(alloc, (false, seen.1, is_whole), number, waiting);
        }
        push_unless(alloc, (true, seen.1, seen.0.is_empty()), 2, waiting)?;
    }
    waiting.extend_from_slice(b"too many reads\n")
}

/// What was written before a write fails, or the flush, is a beginning of the answer.
fn push_unlike_writes(
    alloc: Global,
    text: &[u8],
    kind: ErrorKind,
    (answer, number): (&[u8], u8),
    waiting: &mut Vec<u8>,
) -> Result<(), AllocError> {
    for before in 0..MOST_CALLS {
        let mut reader = text;
        let mut writer = FailingWriter {
            taken: Vec::new(alloc),
            calls: Calls::after(before, kind),
        };
        let ended = status(&script(alloc, &mut reader, &mut writer));
        let taken = writer.taken.as_slice();
        let is_whole = taken == answer;
        let is_beginning = answer.starts_with(taken);
        if !writer.calls.has_failed {
            return push_unless(alloc, (false, ended, is_whole), number, waiting);
        }
        push_unless(alloc, (true, ended, is_beginning), 2, waiting)?;
    }
    waiting.extend_from_slice(b"too many writes\n")
}

/// Puts what was seen after what waits, unless the status is this one and what was written is what is to be.
fn push_unless(
    alloc: Global,
    seen: Seen,
    number: u8,
    waiting: &mut Vec<u8>,
) -> Result<(), AllocError> {
    let (has_failed, ended, is_wanted) = seen;
    if ended == number && is_wanted {
        return Ok(());
    }
    let line = format!(in alloc;
        "a call failed {has_failed}: exit {ended}, written {is_wanted}\n"
    )?;
    waiting.extend_from_slice(line.as_bytes())
}
