// The bench desk: calls from standard input, one a line, and after each what it answers.
#![tactic(auto)]

mod answer;
mod echo;
mod help;
mod picture;
mod read;
mod status;
mod table;

use answer::answer;
use echo::echo;
use help::help;
use print::Out;
use read::read;
use script::call::Call;
use script::input::{CHUNK, Input, LINE};
use script::line::{BYTES, call};
use show::style::Style;
use slots::Slots;
use std::process::ExitCode;

fn main(rt: HostRuntime) -> ExitCode {
    let mut chunk = [0u8; CHUNK];
    let mut line = [0u8; LINE];
    let mut bytes = [0u8; BYTES];
    let mut out = Out::start(rt.stdout());
    let mut input = Input::start();
    let mut slots = Slots::start();
    for _ in 0..u64::MAX {
        input = input.next(rt.stdin(), &mut chunk, &mut line);
        if input.whole {
            if let Some(call) = call(&mut out, input, &line, &mut bytes) {
                echo(&mut out, call, input, &line);
                match call {
                    Call::Read(p) => read(&mut out, Style::Line, p, &bytes),
                    Call::Explain(p) => read(&mut out, Style::Explained, p, &bytes),
                    Call::Help => help(&mut out),
                    _ => answer(&mut out, &mut slots, call, &bytes),
                }
            }
            out.flush();
        }
        if input.over || out.unread() {
            break;
        }
    }
    ExitCode::from(out.status())
}
