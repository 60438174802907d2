// What the exit status is to say of a call.
use print::{Fault, Out};

// A refusal is marked; a message that is set aside is no refusal.
pub fn status(out: &mut Out, n: u32) {
    if !matches!(n, 0 | 20) {
        out.mark(Fault::Call);
    }
}
