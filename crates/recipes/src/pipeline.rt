//! Three stages on threads: if one fails, all stop, and its error is told.
//!
//! You need this where what one stage makes is the work of the next. A stage that fails closes the
//! channels on both of its sides, and drops what is pending there, which others would still work
//! on. A stage whose channel was closed by another ends without an error. So each error is that of
//! a stage that failed itself. If there are several, the first stage's is told.

use anyhow::Context;
use async_priority_channel::{End, Receiver, Role, Sender, bounded};
use std::alloc::AllocGlobal;
use std::sync::Wait;
use std::thread::{self, Threads};

const ROOM: u64 = 2;

fn read<R: Wait + Clone>(text: &'static str, to_parse: &Sender<&'static str, (), R>) {
    for word in text.split_whitespace() {
        if to_parse.send_blocking(word, ()).is_err() {
            break; // a stage has failed
        }
    }
}

fn parse<R: Wait + Clone>(
    words: &Receiver<&'static str, (), R>,
    to_sum: &Sender<u64, (), R>,
) -> anyhow::Result<()> {
    for (word, ()) in words {
        let number = word.parse().context(format_args!("{word:?}"))?;
        if to_sum.send_blocking(number, ()).is_err() {
            break;
        }
    }
    Ok(())
}

// Nothing more is sent there. What is pending is dropped, or, if memory is refused, received.
fn stop<S: Role, T: Drop, R: Wait + Clone>(end: &End<S, T, (), R>) {
    end.close();
    let _ = end.retain(|_, ()| false);
}

fn parse_or_stop<R: Wait + Clone>(
    words: &Receiver<&'static str, (), R>,
    to_sum: &Sender<u64, (), R>,
) -> anyhow::Result<()> {
    let parsed = parse(words, to_sum);
    if parsed.is_err() {
        stop(words);
        stop(to_sum);
    }
    parsed
}

fn sum<R: Wait + Clone>(numbers: &Receiver<u64, (), R>) -> anyhow::Result<u64> {
    let _guard = numbers.close_on_drop();
    let mut sum = 0u64;
    for (number, ()) in numbers {
        sum = sum.checked_add(number).context("the sum is too great")?;
    }
    Ok(sum)
}

fn sum_of<R>(rt: R, text: &'static str) -> anyhow::Result<u64>
where
    R: Threads + Wait + Copy + AllocGlobal + Send + 'static,
{
    let (to_parse, words) = bounded(&rt, rt.alloc(), ROOM)?;
    let (to_sum, numbers) = bounded(&rt, rt.alloc(), ROOM)?;
    let reader = thread::spawn(&rt, move || read(text, &to_parse))?;
    let mut parsers = Vec::new(rt.alloc());
    for _ in 0..2 {
        let (words, to_sum) = (words.clone()?, to_sum.clone()?);
        parsers.push(thread::spawn(&rt, move || parse_or_stop(&words, &to_sum))?)?;
    }
    drop((words, to_sum)); // the parsers have the others
    let summed = sum(&numbers);
    reader.join(&rt);
    let mut parsed = Ok(());
    for parser in parsers {
        parsed = parsed.and(parser.join(&rt));
    }
    parsed.and(summed)
}

pub fn run<R>(rt: R) -> anyhow::Result<()>
where
    R: Threads + Wait + Copy + Print + AllocGlobal + Send + 'static,
{
    for text in ["1 2 3 4", "1 two 3 4"] {
        match sum_of(rt, text) {
            Ok(sum) => println!(rt; "pipeline: the sum is {sum}")?,
            Err(error) => println!(rt; "pipeline: {error:#}")?,
        }
    }
    Ok(())
}
