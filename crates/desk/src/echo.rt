// What goes before an answer: the call itself.
use print::Out;
use script::call::Call;
use script::input::{Input, LINE};
use script::line::said;

pub fn echo(out: &mut Out, call: Call, input: Input, line: &[u8; LINE]) {
    if !matches!(call, Call::Help) {
        out.raw(said(input, line));
        out.text(": ");
    }
}
