// The program on one more stored run: the deepest job.
#![tactic(auto)]

use std::process::ExitCode;

fn main(rt: HostRuntime) -> ExitCode {
    console::run(&rt)
}
