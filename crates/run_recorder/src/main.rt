// The program on one more stored run: a recorder.
#![tactic(auto)]

use std::process::ExitCode;

fn main(rt: HostRuntime) -> ExitCode {
    console::run(&rt)
}
