// The output: bytes that wait in a buffer of fixed size until it is full or flushed.
ghost use Rattle.std.specs.Prelude.{◌≡◌, ◌≤◌, OnOk};

use std::fmt;
use std::io::Write;

const ROOM: usize = 4096;

// std's BufWriter has its buffer on the heap; a program with fixed memory has it here.
#[derive(Drop)]
pub struct Output<W> {
    to: W,
    buffer: [u8; ROOM],
    waiting: usize,
    ghost fits: { waiting ≤ 4096 },
}

impl<W: Write> Output<W> {
    pub fn new(to: W) -> Self
        ensures { result.waiting ≡ 0 }
    {
        Output {
            to,
            buffer: [0; ROOM],
            waiting: 0,
        }
    }

    // Writes out the bytes that wait.
    pub fn flush(&mut self) -> fmt::Result
        ensures { OnOk result (self.new.waiting ≡ 0) }
    {
        let waiting = &self.buffer[..self.waiting];
        self.to.write_all(waiting).map_err(|_| fmt::Error)?;
        self.waiting = 0;
        Ok(())
    }
}

impl<W: Write> fmt::Write for Output<W> {
    // Puts a text behind the bytes that wait. A full buffer is written out first.
    fn write_str(&mut self, s: &str) -> fmt::Result {
        for byte in s.bytes() {
            if self.waiting == ROOM {
                self.flush()?;
            }
            self.buffer[self.waiting] = byte;
            self.waiting += 1;
        }
        Ok(())
    }
}
