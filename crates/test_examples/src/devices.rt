//! Readers that are slow, or fail, and writers that are full.
use scripts::{script, status};
use std::alloc::{AllocError, Global};
use std::io;
use std::io::{Error, ErrorKind, Read, Write};

/// What devices fail for.
pub(crate) const FAULTS: [ErrorKind; 5] = [
    ErrorKind::BrokenPipe,
    ErrorKind::OutOfMemory,
    ErrorKind::TimedOut,
    ErrorKind::StorageFull,
    ErrorKind::Other,
];

/// What a script is answered, and the exit status.
pub(crate) fn answered<R: Read>(alloc: Global, reader: &mut R) -> (Vec<u8>, u8) {
    let mut answer = Vec::new(alloc);
    let ended = script(alloc, reader, &mut answer);
    (answer, status(&ended))
}

/// Gives its text byte by byte, with an interruption before each, and then fails, if it is to.
#[derive(Drop)]
struct Slow<'a> {
    left: &'a [u8],
    is_interrupted: bool,
    fault: Option<ErrorKind>,
}

impl Read for Slow<'_> {
    fn read(&mut self, buf: &mut [u8]) -> io::Result<usize> {
        self.is_interrupted = !self.is_interrupted;
        if self.is_interrupted {
            return Err(Error::from(ErrorKind::Interrupted));
        }
        if let ([first, rest @ ..], [place, ..]) = (self.left, buf) {
            *place = *first;
            self.left = rest;
            return Ok(1);
        }
        match self.fault {
            Some(kind) => Err(Error::from(kind)),
            None => Ok(0),
        }
    }
}

/// Takes bytes, three at a time. Where it has no room left a write fails, and a flush too.
#[derive(Drop)]
struct Full {
    taken: Vec<u8>,
    room: usize,
    flushes: usize,
    /// How many bytes it had taken when it was flushed last.
    flushed: usize,
}

impl Write for Full {
    fn write(&mut self, buf: &[u8]) -> io::Result<usize> {
        if self.room == 0 {
            return Err(Error::from(ErrorKind::StorageFull));
        }
        let count = buf.len().min(self.room).min(3);
        self.taken.extend_from_slice(&buf[..count])?;
        self.room -= count;
        Ok(count)
    }

    fn flush(&mut self) -> io::Result<()> {
        self.flushes = self.flushes.saturating_add(1);
        self.flushed = self.taken.len();
        if self.room == 0 {
            return Err(Error::from(ErrorKind::StorageFull));
        }
        Ok(())
    }
}

/// Puts what devices were answered otherwise than they are to be after what waits. `answer` is what the script is
/// answered, with its exit status.
pub(crate) fn push_unlike(
    alloc: Global,
    script: &[u8],
    answer: (&[u8], u8),
    waiting: &mut Vec<u8>,
) -> Result<(), AllocError> {
    // A script may end without a line feed.
    let unended = script.strip_suffix(b"\n").unwrap_or(script);
    push_unlike_read(alloc, script, None, answer, waiting)?;
    push_unlike_read(alloc, unended, None, answer, waiting)?;
    // Where a read fails nothing is written, though whole commands were read. Want of memory is a reader's failure as
    // any other.
    for kind in FAULTS {
        push_unlike_read(alloc, script, Some(kind), (&[], 2), waiting)?;
    }
    let length = answer.0.len();
    let middle = length / 2;
    for room in [0, 1, middle, length, length.saturating_add(1)] {
        push_unlike_written(alloc, script, answer, room, waiting)?;
    }
    Ok(())
}

/// Puts what a slow reader was answered after what waits, where it isn't this.
fn push_unlike_read(
    alloc: Global,
    script: &[u8],
    fault: Option<ErrorKind>,
    (wanted, number): (&[u8], u8),
    waiting: &mut Vec<u8>,
) -> Result<(), AllocError> {
    let mut reader = Slow {
        left: script,
        is_interrupted: false,
        fault,
    };
    let seen = answered(alloc, &mut reader);
    if seen.0.as_slice() != wanted || seen.1 != number {
        let line = format!(in alloc; "read slowly, and then {fault:?}: exit {}\n", seen.1)?;
        waiting.extend_from_slice(line.as_bytes())?;
        waiting.extend_from_slice(&seen.0)?;
    }
    Ok(())
}

/// What is seen of a writer: the exit status, how many bytes it took, and whether the answer begins with them; how
/// often it was flushed, and how many bytes it had by then.
type Written = ((u8, usize, bool), (usize, usize));

/// What is seen of a writer with so much room.
fn written(alloc: Global, text: &[u8], answer: &[u8], room: usize) -> Written {
    let mut reader = text;
    let mut writer = Full {
        taken: Vec::new(alloc),
        room,
        flushes: 0,
        flushed: 0,
    };
    let ended = script(alloc, &mut reader, &mut writer);
    let is_beginning = answer.starts_with(writer.taken.as_slice());
    let taken = (status(&ended), writer.taken.len(), is_beginning);
    (taken, (writer.flushes, writer.flushed))
}

/// What is to be seen of a writer with so much room. What it took before it failed is a beginning of the answer; a
/// whole answer is flushed once, at its end.
fn wanted_of((answer, number): (&[u8], u8), room: usize) -> Written {
    let length = answer.len();
    if room < length {
        ((2, room, true), (0, 0))
    } else if room == length {
        ((2, length, true), (1, length))
    } else {
        ((number, length, true), (1, length))
    }
}

/// Puts what was seen of a writer with so much room after what waits, where it isn't what is to be seen.
fn push_unlike_written(
    alloc: Global,
    script: &[u8],
    answer: (&[u8], u8),
    room: usize,
    waiting: &mut Vec<u8>,
) -> Result<(), AllocError> {
    let seen = written(alloc, script, answer.0, room);
    if seen != wanted_of(answer, room) {
        let line = format!(in alloc; "written where there is room for {room}: {seen:?}\n")?;
        waiting.extend_from_slice(line.as_bytes())?;
    }
    Ok(())
}
