// Standard output by way of a buffer, so that a line of many pieces is one system call. It lies on the stack: the desk allocates nothing.
ghost use Rattle.std.specs.Prelude.{◌≤◌};

use std::io::{ErrorKind, Print, Stdout};

const ROOM: usize = 16384;

// Standard output, what waits for it, and what the program's exit status is to say.
#[derive(Drop)]
pub struct Out {
    stdout: Stdout,
    waiting: [u8; ROOM],
    // How many of these bytes wait.
    length: usize,
    // Whether a line was wrong, whether a call was refused, and whether nobody reads on.
    wrong: bool,
    refused: bool,
    unread: bool,
    ghost fits: { length ≤ 16384 },
}

#[derive(Clone, Copy)]
pub enum Fault {
    // A line is wrong.
    Line,
    // A call is refused.
    Call,
}

// Writes bytes, and says whether nobody reads them. No other failure is told.
fn lost(stdout: Stdout, s: &[u8]) -> bool {
    match stdout.write_all(s) {
        Ok(_) => false,
        Err(e) => e.kind() == ErrorKind::BrokenPipe,
    }
}

impl Out {
    pub fn start(stdout: Stdout) -> Out {
        Out {
            stdout,
            waiting: [0; ROOM],
            length: 0,
            wrong: false,
            refused: false,
            unread: false,
        }
    }

    // Whether nobody reads what is written.
    pub fn unread(&self) -> bool {
        self.unread
    }

    // The exit status: 1 where a line was wrong, else 3 where a call was refused, else 0; and 141, as of a program that is stopped by its pipe,
    // where nobody reads on.
    pub fn status(&self) -> u8 {
        if self.unread {
            141
        } else if self.wrong {
            1
        } else if self.refused {
            3
        } else {
            0
        }
    }

    // Marks what the exit status is to say.
    pub fn mark(&mut self, fault: Fault) {
        match fault {
            Fault::Line => self.wrong = true,
            Fault::Call => self.refused = true,
        }
    }

    // Writes what waits.
    pub fn flush(&mut self) {
        self.unread |= lost(self.stdout, &self.waiting[..self.length]);
        self.length = 0;
    }

    // Bytes as they are. Where they do not fit what is free, what waits goes first, and what no buffer has room for is written at once.
    pub fn raw(&mut self, s: &[u8]) {
        if ROOM - self.length < s.len() {
            self.flush();
        }
        if ROOM - self.length < s.len() {
            self.unread |= lost(self.stdout, s);
            return;
        }
        let end = self.length + s.len();
        self.waiting[self.length..end].copy_from_slice(s);
        self.length = end;
    }

    pub fn text(&mut self, s: &str) {
        self.raw(s.as_bytes());
    }

    pub fn byte(&mut self, b: u8) {
        self.raw(&[b]);
    }
}
