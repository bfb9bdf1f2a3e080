//! What is told of each line, as a line of its own.

use std::io::{self, Write};
use std::sync::{Mutex, Wait};

/// Several threads may write: a line is written whole, and flushed.
#[derive(Drop)]
pub struct Reports<W: Write> {
    out: Mutex<W>,
}

impl<W: Write> Reports<W> {
    pub fn new(out: W) -> Self {
        Reports {
            out: Mutex::new(out),
        }
    }

    pub fn write<R: Wait>(&self, rt: &R, word: &str, subject: &[u8]) -> io::Result<()> {
        let mut out = self.out.lock(rt);
        out.write_all(word.as_bytes())?;
        out.write_all(b" ")?;
        out.write_all(subject)?;
        out.write_all(b"\n")?;
        out.flush()
    }
}
