// The product: standard input to standard output, a read at a time.
#![tactic(auto)]

mod run;
mod usage;

use run::Run;
use std::env::FillError;
use std::rt::Env;

// Whether the program was started with an argument, be it longer than the buffer or empty.
fn has_argument(rt: &impl Env) -> bool {
    let mut text = [0u8; 1];
    !matches!(rt.arg(1, &mut text), Err(FillError::NotPresent))
}

fn main(rt: HostRuntime) {
    if has_argument(&rt) {
        usage::say();
    } else {
        Run::new().answer_input(&rt, &mut rt.stdin());
    }
}
