// A loaded job, and its report in any source and any value algebra.
ghost use Rattle.std.specs.Prelude.{◌≡◌, ◌≤◌, length, IfOk, string_bytes};
ghost use Rattle.job.specs.Tables.{nodes_of};
ghost use Rattle.console.specs.Evaluations.{Reported, ReportedBy, source_of};

use crate::command::{Plan, Reckoning};
use algebra::{Cell, ValueAlgebra};
use evaluate::{evaluate, left_to_right};
use figures::{Float, Summary, Trail};
use frame::{Recorder, Source, Trace};
use job::Table;
use render::report;
use std::alloc::{AllocError, Global};
use std::fmt::Display;

// A job with a node, and where the memory for its report comes from.
#[derive(Clone, Copy)]
pub(crate) struct Loaded<'a> {
    pub heap: Global,
    pub table: &'a Table,
    ghost some: { 1 ≤ length (nodes_of table.now) },
}

impl<'a> Loaded<'a> {
    // The report in this source, by this algebra.
    fn reported<S: Source, V: Display + Copy, A: ValueAlgebra<Value = V>>(
        &self,
        source: &S,
        algebra: &A,
    ) -> Result<String, AllocError>
        ensures { IfOk result (λ s. Reported V.output (nodes_of self.now.table.now) (S.frames source.now) (A.rules algebra.now) (string_bytes s)) }
    {
        let Loaded { heap, table } = *self;
        let mut cells = vec![in heap; Cell { outcome: None }; usize::from(table.len())]?;
        let _ = evaluate(table, source, algebra, &mut cells).unwrap();
        let order = left_to_right(heap, table)?;
        report(heap, table, source.count(), &order, &cells)
    }

    // The report in this source, by the given reckoning.
    fn reckoned<S: Source>(&self, source: &S, reckoning: Reckoning) -> Result<String, AllocError>
        ensures { IfOk result (λ s. ReportedBy reckoning (nodes_of self.now.table.now) (S.frames source.now) (string_bytes s)) }
    {
        match reckoning {
            Reckoning::Trail => self.reported(source, &Trail),
            Reckoning::Summary => self.reported(source, &Summary),
            Reckoning::Float => self.reported(source, &Float),
        }
    }

    // The report in a trace, or in a recorder where the plan has a start.
    pub(crate) fn report(&self, bytes: &[u8], plan: Plan) -> Result<String, AllocError>
        ensures { IfOk result (λ s. ReportedBy plan.reckoning (nodes_of self.now.table.now) (source_of bytes.now plan.start) (string_bytes s)) }
    {
        let Plan { reckoning, start } = plan;
        match start {
            None => self.reckoned(&Trace { bytes }, reckoning),
            Some(start) => self.reckoned(&Recorder { bytes, start }, reckoning),
        }
    }
}
