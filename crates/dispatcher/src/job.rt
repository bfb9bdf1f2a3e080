//! What there is to do: how a job is read, and what it does.
//!
//! A line is `ID PRIORITY TEXT`, with one space between: a word, a whole number of 64 bits, and
//! what else the line has, which may be empty. The text stands for the work of a real job: one that
//! begins with `fail` fails, `sleep MS` takes so many milliseconds, and any other is done at once.

use std::alloc::{AllocError, Global};
use std::time::{Clock, Duration};
use std::{str, thread};

#[derive(Drop)]
pub struct Job {
    pub id: String,
    text: String,
}

/// A job that was not done.
#[derive(Clone, Copy, Debug, Drop)]
pub struct Failed;

impl Job {
    /// The job of a line, and its priority. None if the line is no job.
    pub fn parse(alloc: Global, line: &[u8]) -> Result<Option<(Job, i64)>, AllocError> {
        let Some((id, priority, text)) = fields(line) else {
            return Ok(None);
        };
        let id = String::from_str(alloc, id)?;
        let text = String::from_str(alloc, text)?;
        Ok(Some((Job { id, text }, priority)))
    }

    pub fn run<R: Clock>(&self, rt: &R) -> Result<(), Failed> {
        if self.text.starts_with("fail") {
            return Err(Failed);
        }
        if let Some(millis) = self.text.strip_prefix("sleep ") {
            let millis = millis.parse().or(Err(Failed))?;
            thread::sleep(rt, Duration::from_millis(millis));
        }
        Ok(())
    }
}

fn fields(line: &[u8]) -> Option<(&str, i64, &str)> {
    let line = str::from_utf8(line).ok()?;
    let (id, rest) = line.split_once(' ')?;
    let (priority, text) = rest.split_once(' ')?;
    Some((id, priority.parse().ok()?, text))
}
