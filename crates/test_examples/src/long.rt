//! Scripts that are too long for a file, how many reads one takes, and in which pieces an answer is written.
use crate::devices::answered;
use script_text::read_within;
use scripts::{script, status};
use std::alloc::{AllocError, Global};
use std::io;
use std::io::{Error, ErrorKind, Read, Write};

/// Gives a text piece by piece, and then another one again and again.
#[derive(Drop)]
struct Repeated<'a> {
    left: &'a [u8],
    text: &'a [u8],
    times: u32,
}

impl Read for Repeated<'_> {
    fn read(&mut self, buf: &mut [u8]) -> io::Result<usize> {
        if self.left.is_empty() && self.times > 0 {
            self.left = self.text;
            self.times -= 1;
        }
        match (self.left, buf) {
            ([first, rest @ ..], [place, ..]) => {
                *place = *first;
                self.left = rest;
                Ok(1)
            }
            _ => Ok(0),
        }
    }
}

/// Takes a few bytes of each write. One write may fail, and those behind it succeed.
#[derive(Drop)]
struct Counted {
    at_once: usize,
    /// The write that fails, counted from 1.
    failing: u64,
    writes: u64,
    /// How many bytes the longest piece had that it was given.
    longest: usize,
    taken: usize,
}

impl Write for Counted {
    fn write(&mut self, buf: &[u8]) -> io::Result<usize> {
        self.writes = self.writes.saturating_add(1);
        self.longest = self.longest.max(buf.len());
        if self.writes == self.failing {
            return Err(Error::from(ErrorKind::StorageFull));
        }
        let count = buf.len().min(self.at_once);
        self.taken = self.taken.saturating_add(count);
        Ok(count)
    }

    fn flush(&mut self) -> io::Result<()> {
        Ok(())
    }
}

/// Puts a line after what waits: how long the answers to ten thousand commands are, and to a comment of 2^20 bytes; and
/// what comes of a text of five bytes in five reads, and in six, of which the last one meets its end. A second line
/// tells in which pieces the answers to ten thousand commands are written, and what is written of them where the second
/// write fails.
pub(crate) fn push_long(alloc: Global, waiting: &mut Vec<u8>) -> Result<(), AllocError> {
    let commands = length_answered(alloc, b"begin\n", b"decide\n", 10_000);
    let comment = length_answered(alloc, b"begin\n#", b"#", 1 << 20);
    let reads = (read_in(alloc, 5), read_in(alloc, 6));
    let line = format!(in alloc;
        "== long\ncommands {commands:?} comment {comment:?} reads {reads:?}\n"
    )?;
    waiting.extend_from_slice(line.as_bytes())?;
    let pieces = (written(alloc, usize::MAX, 0), written(alloc, 65536, 2));
    let line = format!(in alloc; "pieces {pieces:?}\n")?;
    waiting.extend_from_slice(line.as_bytes())
}

/// How often a writer was written to and its longest piece, how many bytes it took, and the exit status.
fn written(alloc: Global, at_once: usize, failing: u64) -> ((u64, usize), (usize, u8)) {
    let mut reader = Repeated {
        left: b"begin\n",
        text: b"decide\n",
        times: 10_000,
    };
    let mut writer = Counted {
        at_once,
        failing,
        writes: 0,
        longest: 0,
        taken: 0,
    };
    let ended = script(alloc, &mut reader, &mut writer);
    (
        (writer.writes, writer.longest),
        (writer.taken, status(&ended)),
    )
}

/// How long the answer to a script is that goes on and on, and its exit status.
fn length_answered(alloc: Global, left: &[u8], text: &[u8], times: u32) -> (usize, u8) {
    let mut reader = Repeated { left, text, times };
    let (answer, number) = answered(alloc, &mut reader);
    (answer.len(), number)
}

/// How many bytes are read in this many reads, if these suffice.
fn read_in(alloc: Global, reads: u64) -> Option<usize> {
    let mut reader = Repeated {
        left: b"begin",
        text: b"",
        times: 0,
    };
    match read_within(alloc, &mut reader, reads) {
        Ok(input) => Some(input.len()),
        Err(_) => None,
    }
}
