// The program on one more stored run: the floats of a real-sized ride, over a thousand texts of floats.
#![tactic(auto)]

use std::process::ExitCode;

fn main(rt: HostRuntime) -> ExitCode {
    console::run(&rt)
}
