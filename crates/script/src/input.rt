// Standard input, line by line.
ghost use Rattle.std.specs.Prelude.{◌≡◌, ◌≤◌, true, false};
ghost use Rattle.script.specs.Input.{begun, plain_byte, onward_of, filled_of, with_byte, byte_left, rest, line_on, step, next_of};

use lent::front;
use std::io::{Read, Stdin};

// Bytes that are read at once, and one more than a line may have.
pub const CHUNK: usize = 4096;

pub const LINE: usize = 32768;

// How far the input is read.
#[derive(Clone, Copy)]
pub struct Input {
    // What is taken of the chunk, and what there is of it.
    pub at: usize,
    pub end: usize,
    // The line's number, from 1.
    pub line: u64,
    // How many of its bytes are there; all that there is room for where it is too long.
    pub length: usize,
    // Whether that is the whole line, and whether the input is over.
    pub whole: bool,
    pub over: bool,
}

// Tabs, carriage returns, commas and colons count as spaces.
#[tactic(auto, unfolding(crate::specs::Input::plain_byte))]
fn plain(b: u8) -> u8
    ensures { result ≡ plain_byte b }
{
    match b {
        b'\t' | b'\r' | b',' | b':' => b' ',
        _ => b,
    }
}

// How many bytes are read: none where the input is over or fails.
fn got(mut stdin: Stdin, chunk: &mut [u8; CHUNK]) -> usize
    ensures { result ≤ 4096 }
{
    stdin.read(chunk).unwrap_or(0)
}

impl Input {
    pub fn start() -> Input
        ensures { result ≡ begun }
    {
        Input {
            at: 0,
            end: 0,
            line: 1,
            length: 0,
            whole: false,
            over: false,
        }
    }

    // After a whole line the next one begins.
    #[tactic(auto, unfolding(crate::specs::Input::onward_of))]
    fn onward(mut self) -> Input
        ensures { result ≡ onward_of self }
    {
        if self.whole {
            self.line = self.line.wrapping_add(1);
            self.length = 0;
            self.whole = false;
        }
        self
    }

    // The next chunk. A last line may have no end of line.
    #[tactic(auto, unfolding(crate::specs::Input::filled_of))]
    fn filled(mut self, stdin: Stdin, chunk: &mut [u8; CHUNK]) -> Input
        ensures { (result ≡ filled_of self result.end) × (result.end ≤ 4096) }
    {
        let n = got(stdin, chunk);
        self.at = 0;
        self.end = n;
        if n == 0 {
            self.over = true;
            self.whole = 0 < self.length;
        }
        self
    }

    // One byte more of the line.
    #[tactic(auto, unfolding(crate::specs::Input::with_byte))]
    fn with(mut self, b: u8, line: &mut [u8; LINE]) -> Input
        ensures { step result line.new ≡ with_byte self b line.old }
    {
        if b == b'\n' {
            self.whole = true;
            return self;
        }
        let n = self.length;
        if n < LINE {
            line[n] = plain(b);
            self.length = n + 1;
        }
        self
    }

    // The bytes of the chunk that are left, up to the end of the line.
    fn through(self, chunk: &[u8; CHUNK], line: &mut [u8; LINE]) -> Input
        ensures { step result line.new ≡ line_on self (rest self chunk.now) line.old }
    {
        let s = front(chunk, self.end);
        let mut r = self;
        for at in self.at..s.len() {
            r.at = at + 1;
            r = r.with(s[at], line);
            if r.whole {
                break;
            }
        }
        r
    }

    // What is left of the line in the chunk; where no byte is left a chunk is read, of which only the outside knows how many bytes there are, and which.
    #[tactic(auto, unfolding(crate::specs::Input::next_of, crate::specs::Input::further))]
    pub fn next(self, stdin: Stdin, chunk: &mut [u8; CHUNK], line: &mut [u8; LINE]) -> Input
        ensures line_after { step result line.new ≡ next_of self chunk.old line.old result.end }
        ensures chunk_unchanged { byte_left (onward_of self) ≡ true → chunk.new ≡ chunk.old }
        ensures end_bound { byte_left (onward_of self) ≡ false → result.end ≤ 4096 }
    {
        let r = self.onward();
        if r.at < r.end && r.at < CHUNK {
            r.through(chunk, line)
        } else {
            r.filled(stdin, chunk)
        }
    }
}
