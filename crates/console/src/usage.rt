// The commands, what is wrong with a command line, and what to write instead.
ghost use Rattle.std.specs.Prelude.{◌≡◌, Some};
ghost use Rattle.console.specs.Usage.{help_text, advice};

use std::fmt;

#[derive(Clone, Copy, Debug, PartialEq, Eq)]
pub enum UsageError {
    NoCommand,
    UnknownCommand,
    MissingArgument,
    SurplusArgument,
    UnknownReckoning,
    BadStart,
}

// What is wrong, and what to do.
impl fmt::Display for UsageError {
    ghost output = { λ x. Some (advice x) };

    fn fmt<W: fmt::Write>(&self, f: &mut fmt::Formatter<W>) -> fmt::Result {
        let words = match self {
            UsageError::NoCommand => "no command: run satinonyx help to see the commands",
            UsageError::UnknownCommand => {
                "unknown command: run satinonyx help to see the commands"
            }
            UsageError::MissingArgument => {
                "missing argument: run satinonyx help to see what a command takes"
            }
            UsageError::SurplusArgument => {
                "surplus argument: run satinonyx help to see what a command takes"
            }
            UsageError::UnknownReckoning => "unknown reckoning: write trail, summary or float",
            UsageError::BadStart => {
                "the start is no frame number: write decimal digits, at most 18446744073709551615"
            }
        };
        f.write_str(words)
    }
}

// The commands, a line each.
pub fn help_text() -> &'static str
    ensures { result.now ≡ help_text }
{
    "satinonyx evaluate JOB TRACE RECKONING [START]  evaluate a job over a trace by trail, summary or float; with START, over a recorder\nsatinonyx help                                  list the commands\n"
}
