// What an evaluation answers, and what it leaves in the cells.
use algebra::{Cell, Fault, ValueAlgebra};
use evaluate::evaluate;
use frame::{Cause, FrameError, Source};
use job::Table;
use std::fmt::Debug;
use std::process::Abort;
use std::test::Fail;

pub(crate) fn bad<V>(error: FrameError, node: u16, frame: u32) -> Result<V, Fault> {
    let cause = Cause::from(error);
    Err(Fault::BadFrame { cause, node, frame })
}

// Evaluates into cells that all hold `mark`: the outcome of each node, the last of which is the root's, and a cell past them as it was.
pub(crate) fn check_outcomes<S: Source, A: ValueAlgebra>(
    rt: &impl Abort,
    table: &Table,
    source: &S,
    algebra: &A,
    cells: &mut [Cell<A::Value>],
    mark: Cell<A::Value>,
    expected: &[Result<A::Value, Fault>],
) -> Result<(), Fail>
where
    A::Value: PartialEq + Debug,
{
    assert_eq!(rt; usize::from(table.len()), expected.len());
    let outcome = evaluate(table, source, algebra, cells)?;
    assert_eq!(rt; Some(outcome), expected.last().copied());
    for (cell, outcome) in cells.iter().zip(expected) {
        assert_eq!(rt; cell.outcome, Some(*outcome));
    }
    for cell in cells.iter().skip(expected.len()) {
        assert_eq!(rt; *cell, mark);
    }
    Ok(())
}
