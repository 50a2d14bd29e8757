//! A stream that moves few bytes at a time, is interrupted, and fails.

use std::alloc::Global;
use std::io::{Error, ErrorKind, Read, Result, Write};

/// The largest number of bytes that a call moves, and the number of calls before every call fails.
#[derive(Clone, Copy)]
pub struct FlakyLimits {
    pub width: usize,
    pub calls: usize,
}

/// Gives and takes a limited number of bytes at a time, is interrupted at every second call, and fails for good once
/// its calls are used up.
#[derive(Drop)]
pub struct FlakyStream<'a> {
    /// The bytes that reads have still to give.
    pub unread: &'a [u8],
    /// The bytes that were written.
    pub held: Vec<u8>,
    /// The bytes of a call, and the calls that are left.
    pub limits: FlakyLimits,
}

impl<'a> FlakyStream<'a> {
    pub fn new(alloc: Global, unread: &'a [u8], limits: FlakyLimits) -> FlakyStream<'a> {
        FlakyStream {
            unread,
            held: Vec::new(alloc),
            limits,
        }
    }

    fn call(&mut self) -> Result<()> {
        if self.limits.calls == 0 {
            return Err(Error::from(ErrorKind::BrokenPipe));
        }
        self.limits.calls -= 1;
        if self.limits.calls % 2 == 0 {
            return Err(Error::from(ErrorKind::Interrupted));
        }
        Ok(())
    }
}

impl Read for FlakyStream<'_> {
    fn read(&mut self, buf: &mut [u8]) -> Result<usize> {
        self.call()?;
        let count = self.unread.len().min(buf.len()).min(self.limits.width);
        let (front, back) = self.unread.split_at(count);
        buf[..count].copy_from_slice(front);
        self.unread = back;
        Ok(count)
    }
}

impl Write for FlakyStream<'_> {
    fn write(&mut self, buf: &[u8]) -> Result<usize> {
        self.call()?;
        let count = buf.len().min(self.limits.width);
        self.held.extend_from_slice(&buf[..count])?;
        Ok(count)
    }

    fn flush(&mut self) -> Result<()> {
        Ok(())
    }
}

/// The number of whole lines of an input that a reader has given, which has these bytes still to give.
pub fn lines_given(input: &[u8], unread: &[u8]) -> usize {
    let given = input.len().saturating_sub(unread.len());
    input
        .iter()
        .take(given)
        .filter(|byte| **byte == b'\n')
        .count()
}

/// The first lines of a text.
pub fn first_lines(text: &[u8], count: usize) -> &[u8] {
    let mut left = count;
    for (index, byte) in text.iter().enumerate() {
        if left == 0 {
            return &text[..index];
        }
        if *byte == b'\n' {
            left -= 1;
        }
    }
    text
}
