// The program: it reads the words and the files, and prints what they ask for.
use crate::command::{Command, Plan, parse};
use crate::evaluation::{EvaluationError, evaluation_text};
use crate::usage::{UsageError, help_text};
use job::Table;
use std::process::ExitCode;
use std::{env, fs, io};
use thiserror::Error;

// Why the program failed.
#[derive(Debug, Drop, Error)]
enum Failure<'a> {
    #[error(transparent)]
    Usage(#[from] UsageError),
    #[error("cannot read {path}: {error}; name a file that can be read")]
    Unreadable { path: &'a str, error: io::Error },
    #[error(transparent)]
    Evaluation(#[from] EvaluationError),
    #[error("input or output failed: {0}")]
    Io(#[from] io::Error),
}

// The words after the program's name.
fn words(rt: &HostRuntime) -> io::Result<Vec<String>> {
    Ok(env::args(rt)?.skip(1).collect(rt.alloc())?)
}

// The bytes of a file.
fn read<'a>(rt: &HostRuntime, path: &'a str) -> Result<Vec<u8>, Failure<'a>> {
    fs::read(rt, path).map_err(|error| Failure::Unreadable { path, error })
}

// Prints the report of a job file over a trace file, or nothing where it fails.
fn evaluate_files<'a>(
    rt: &HostRuntime,
    job: &'a str,
    trace: &'a str,
    plan: Plan,
) -> Result<(), Failure<'a>> {
    let job = read(rt, job)?;
    let trace = read(rt, trace)?;
    let mut table = Table::new(rt.alloc()).map_err(EvaluationError::from)?;
    let text = evaluation_text(rt.alloc(), &mut table, &job, &trace, plan)?;
    Ok(rt.print(text)?)
}

// Does what the words ask for.
fn obey<'a>(rt: &HostRuntime, words: &'a [String]) -> Result<(), Failure<'a>> {
    match parse(words)? {
        Command::Help => Ok(rt.print(help_text())?),
        Command::Evaluate { job, trace, plan } => evaluate_files(rt, job, trace, plan),
    }
}

// One line on standard error, and the status that says so.
fn complain(rt: &HostRuntime, failure: Failure<'_>) -> ExitCode {
    let _ = rt.eprintln(failure);
    ExitCode::FAILURE
}

// Does what the command line asks for; a failure is one line on standard error and status 1.
pub fn run(rt: &HostRuntime) -> ExitCode {
    let words = match words(rt) {
        Ok(words) => words,
        Err(error) => return complain(rt, Failure::Io(error)),
    };
    match obey(rt, &words) {
        Ok(()) => ExitCode::SUCCESS,
        Err(failure) => complain(rt, failure),
    }
}
