// Words, numbers and bytes, for standard output; and marks for the program's exit status.
#![tactic(auto)]

mod buffer;

pub use buffer::{Fault, Out};
use itoa::Buffer;

// How many digits a number is padded to.
const WIDTH: usize = 15;

// A byte as it is printed: a dot where it is not printable.
fn glyph(b: u8) -> u8 {
    match b {
        b' '..=b'~' => b,
        _ => b'.',
    }
}

impl Out {
    // Most numbers have one digit.
    pub fn number(&mut self, n: u64) {
        if n < 10 {
            self.byte(b'0' + n as u8);
        } else {
            self.text(Buffer::new().format(n));
        }
    }

    // A number with zeros in front.
    pub fn padded(&mut self, n: u64) {
        let mut buffer = Buffer::new();
        let digits = buffer.format(n);
        for _ in digits.len()..WIDTH {
            self.text("0");
        }
        self.text(digits);
    }

    // The last digits of a number in hex, zeros in front among them: it has no more than sixteen.
    fn hex(&mut self, n: u64, width: usize) {
        for left in (0..width.min(16)).rev() {
            let digit = (n >> (4 * left)) % 16;
            self.byte(b"0123456789abcdef"[digit as usize]);
        }
    }

    // A float's 64 bits.
    pub fn bits(&mut self, n: u64) {
        self.hex(n, 16);
    }

    // Bytes in hex, in brackets, so that none at all can be seen.
    pub fn bytes(&mut self, s: &[u8]) {
        self.text("[");
        for b in s {
            self.hex(u64::from(*b), 2);
        }
        self.text("]");
    }

    // Bytes as text.
    pub fn printable(&mut self, s: &[u8]) {
        for b in s {
            self.byte(glyph(*b));
        }
    }

    // The nth of these texts, counted from 0, and the last one for each n past them.
    pub fn piece(&mut self, pieces: &[&str], n: u64) {
        if let Some(piece) = pieces.get(n as usize).or(pieces.last()) {
            self.text(piece);
        }
    }
}
