//! Each answer is there before the next line is waited for.
use super::{EXAMPLE, expect_run};
use crate::run::prio_run;
use std::cell::RefCell;
use std::io;
use std::io::{ErrorKind, Read, Write};

fn show(screen: &RefCell<Vec<u8>>, bytes: &[u8]) -> io::Result<()> {
    let Ok(mut shown) = screen.try_borrow_mut() else {
        return Err(io::Error::from(ErrorKind::Other));
    };
    shown.extend_from_slice(bytes)?;
    Ok(())
}

// A keyboard at which a line is typed at a time.
#[derive(Drop)]
struct Keyboard<'a> {
    script: &'a [u8],
    screen: &'a RefCell<Vec<u8>>,
}

impl Read for Keyboard<'_> {
    fn read(&mut self, buf: &mut [u8]) -> io::Result<usize> {
        let end = self.script.iter().position(|b| *b == b'\n');
        let len = end.map_or(0, |at| at + 1).min(buf.len());
        show(self.screen, &self.script[..len])?;
        self.script.read(&mut buf[..len])
    }
}

// Shows the answers where the lines are shown.
#[derive(Drop)]
struct Screen<'a>(&'a RefCell<Vec<u8>>);

impl Write for Screen<'_> {
    fn write(&mut self, buf: &[u8]) -> io::Result<usize> {
        show(self.0, buf)?;
        Ok(buf.len())
    }

    fn flush(&mut self) -> io::Result<()> {
        Ok(())
    }
}

#[test]
fn answers_before_it_waits_for_the_next_line(rt: HostRuntime) {
    let shown = RefCell::new(Vec::new(rt.alloc()));
    let input = Keyboard {
        script: EXAMPLE.as_bytes(),
        screen: &shown,
    };
    let mut faults = Vec::new(rt.alloc());
    let status = prio_run(&rt, rt.alloc(), input, &mut Screen(&shown), &mut faults);
    let shown = shown.into_inner();
    let ended = (status, shown.as_slice(), faults.as_slice());
    let wanted = "reserved 1\nok\nsend 5 x\nok\nsend 9 y\nfull\nrecv\nx 5\nrecv\nempty\n";
    expect_run(&rt, "the screen", ended, (0, wanted, ""));
}
