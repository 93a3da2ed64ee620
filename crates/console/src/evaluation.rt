// The evaluation of a job over a trace, from bytes to the text of its report.
ghost use Rattle.std.specs.Prelude.{◌≡◌, Some};
ghost use Rattle.layout.specs.Loaded.{loaded, contents};
ghost use Rattle.job.specs.Tables.{nodes_of};
ghost use Rattle.console.specs.Evaluations.{source_of, TextAnswered};
ghost use Rattle.console.specs.Reasons.{reason_text};
ghost use Rattle.console.specs.declared.evaluation.EvaluationError.TheVariants.{Load, Memory};

use crate::command::Plan;
use crate::loaded::Loaded;
use job::Table;
use layout::LoadRefusal;
use std::alloc::{AllocError, Global};
use std::fmt;

// Why there is no report.
#[derive(Clone, Copy, Debug, PartialEq, Eq)]
pub enum EvaluationError {
    // The job is refused.
    Load(LoadRefusal),
    // There is no memory.
    Memory,
}

impl From<LoadRefusal> for EvaluationError {
    ghost from_gives = { λ refusal e. e ≡ Load refusal };

    fn from(refusal: LoadRefusal) -> EvaluationError {
        EvaluationError::Load(refusal)
    }
}

impl From<AllocError> for EvaluationError {
    ghost from_gives = { λ _ e. e ≡ Memory };

    fn from(_: AllocError) -> EvaluationError {
        EvaluationError::Memory
    }
}

impl fmt::Display for EvaluationError {
    ghost output = { λ e. Some (reason_text e) };

    fn fmt<W: fmt::Write>(&self, f: &mut fmt::Formatter<W>) -> fmt::Result {
        match self {
            EvaluationError::Load(reason) => write!(f, "{reason}"),
            EvaluationError::Memory => f.write_str("out of memory"),
        }
    }
}

// The report of the job in a file's bytes, which is loaded into `table`.
pub fn evaluation_text(
    heap: Global,
    table: &mut Table,
    job: &[u8],
    trace: &[u8],
    plan: Plan,
) -> Result<String, EvaluationError>
    ensures answer { TextAnswered job.now (source_of trace.now plan.start) plan.reckoning result }
    ensures table { nodes_of table.new ≡ contents (loaded job.now) }
{
    table.load(job)?;
    let loaded = Loaded { heap, table };
    Ok(loaded.report(trace, plan)?)
}
