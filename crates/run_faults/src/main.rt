// The program on one more stored run: a lopsided job with two bad frames.
#![tactic(auto)]

use std::process::ExitCode;

fn main(rt: HostRuntime) -> ExitCode {
    console::run(&rt)
}
