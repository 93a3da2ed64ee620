// What was asked for on the command line.
ghost use Rattle.std.specs.Prelude.{◌≡◌, map, string_bytes};
ghost use Rattle.layout.specs.Steps.{map_ok};
ghost use Rattle.console.specs.Reckonings.{reckoning_of};
ghost use Rattle.console.specs.Commands.{asked, help_with, evaluate_with, parsed};

use crate::number::decimal;
use crate::usage::UsageError;
use std::str::FromStr;

// By which value algebra a job is evaluated.
#[derive(Clone, Copy, Debug, PartialEq, Eq)]
pub enum Reckoning {
    Trail,
    Summary,
    Float,
}

// How a trace is read and reckoned; a start makes it a recorder.
#[derive(Clone, Copy, Debug, PartialEq, Eq)]
pub struct Plan {
    pub reckoning: Reckoning,
    pub start: Option<usize>,
}

// A command, with the names of its files.
#[derive(Clone, Copy, Debug, PartialEq, Eq)]
pub enum Command<'a> {
    Help,
    Evaluate {
        job: &'a str,
        trace: &'a str,
        plan: Plan,
    },
}

impl FromStr for Reckoning {
    type Err = UsageError;

    ghost from_str_gives = { λ word r. r ≡ reckoning_of word };

    fn from_str(word: &str) -> Result<Reckoning, UsageError> {
        match word {
            "trail" => Ok(Reckoning::Trail),
            "summary" => Ok(Reckoning::Summary),
            "float" => Ok(Reckoning::Float),
            _ => Err(UsageError::UnknownReckoning),
        }
    }
}

// `help` with the words after it.
fn help(rest: &[String]) -> Result<Command<'_>, UsageError>
    ensures { map_ok asked result ≡ help_with (map string_bytes rest.now) }
{
    match rest {
        [] => Ok(Command::Help),
        _ => Err(UsageError::SurplusArgument),
    }
}

// `evaluate` with the words after it.
fn evaluate(rest: &[String]) -> Result<Command<'_>, UsageError>
    ensures { map_ok asked result ≡ evaluate_with (map string_bytes rest.now) }
{
    let [job, trace, kind, rest @ ..] = rest else {
        return Err(UsageError::MissingArgument);
    };
    let start = match rest {
        [] => None,
        [first] => Some(decimal(first).ok_or(UsageError::BadStart)?),
        _ => return Err(UsageError::SurplusArgument),
    };
    let reckoning = kind.parse()?;
    let plan = Plan { reckoning, start };
    Ok(Command::Evaluate { job, trace, plan })
}

// The command in the words after the program's name.
pub fn parse(words: &[String]) -> Result<Command<'_>, UsageError>
    ensures { map_ok asked result ≡ parsed (map string_bytes words.now) }
{
    match words {
        [] => Err(UsageError::NoCommand),
        [command, rest @ ..] => match command.as_str() {
            "help" => help(rest),
            "evaluate" => evaluate(rest),
            _ => Err(UsageError::UnknownCommand),
        },
    }
}
