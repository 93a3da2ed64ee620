// Outcomes of whole jobs, and what they leave in the cells.
use crate::outcomes::{bad, check_outcomes};
use crate::samples::{
    BROKEN_TRACE, GROUPED_TRACE, LEFT_GROUPED, LOPSIDED, LOPSIDED_TRACE, PAIR, PAIR_TRACE,
    RIGHT_GROUPED, TURNED_TRACE,
};
use crate::tables::table_of;
use algebra::{Cell, Fault};
use evaluate::{EvaluateRefusal, evaluate};
use figures::{Figures, Float, Summary, Sums, Trail};
use frame::{FrameError, Recorder, Source, Trace};
use job::Table;
use std::alloc::Global;
use std::process::Abort;
use std::test::Fail;

type Outcome = Result<u32, Fault>;

const MARKED: Cell<u32> = Cell {
    outcome: Some(Ok(77)),
};

// The outcomes of the pair's two leaves and of its fork; a fourth cell stays as it was.
fn check_pair<S: Source>(
    rt: &impl Abort,
    table: &Table,
    source: &S,
    expected: [Outcome; 3],
) -> Result<(), Fail> {
    let cells = &mut [MARKED; 4];
    check_outcomes(rt, table, source, &Trail, cells, MARKED, &expected)
}

#[test]
fn trail_of_a_pair(rt: HostRuntime) -> Result<(), Fail> {
    let table = table_of(rt.alloc(), PAIR)?;
    let trace = Trace { bytes: PAIR_TRACE };
    check_pair(&rt, &table, &trace, [Ok(5), Ok(7), Ok(162)])?;
    let turned = Trace {
        bytes: TURNED_TRACE,
    };
    check_pair(&rt, &table, &turned, [Ok(7), Ok(5), Ok(222)])?;
    let recorder = Recorder {
        bytes: TURNED_TRACE,
        start: 1,
    };
    check_pair(&rt, &table, &recorder, [Ok(5), Ok(7), Ok(162)])
}

// A wrong check, and a front of 40,001.
const BOTH_BAD: &[u8] = b"\0\x05\0\x08\0\0\0\xd4\
    \x9c\x41\0\x02\0\0\0\x98";

// The right side is worked though the left side is at fault.
#[test]
fn the_left_fault_is_named(rt: HostRuntime) -> Result<(), Fail> {
    let table = table_of(rt.alloc(), PAIR)?;
    let left = bad(FrameError::WrongCheck, 1, 0);
    let right = bad(FrameError::TooFast, 2, 1);
    let both = Trace { bytes: BOTH_BAD };
    check_pair(&rt, &table, &both, [left, right, left])?;
    let turned = Recorder {
        bytes: BOTH_BAD,
        start: 1,
    };
    let left = bad(FrameError::TooFast, 1, 0);
    let right = bad(FrameError::WrongCheck, 2, 1);
    check_pair(&rt, &table, &turned, [left, right, left])?;
    let short = Trace {
        bytes: &PAIR_TRACE[0..15],
    };
    let right = bad(FrameError::Missing, 2, 1);
    check_pair(&rt, &table, &short, [Ok(5), right, right])?;
    let missing = Recorder {
        bytes: PAIR_TRACE,
        start: 2,
    };
    let left = bad(FrameError::Missing, 1, 0);
    check_pair(&rt, &table, &missing, [left, right, left])
}

// A job of one leaf, whose one frame has the highest number.
const LAST: &[u8] = b"\0\x01\0\x01\
    \x01\0\0\0\xff\xff\xff\xff\0\x01\0\0";

#[test]
fn the_last_frame_is_missing(rt: HostRuntime) -> Result<(), Fail> {
    let table = table_of(rt.alloc(), LAST)?;
    let trace = Trace { bytes: PAIR_TRACE };
    let outcome = evaluate(&table, &trace, &Trail, &mut [MARKED])?;
    assert_eq!(rt; outcome, bad(FrameError::Missing, 1, 4_294_967_295));
    Ok(())
}

// The trail of each node of the lopsided job.
const TRAILS: [u32; 15] = [
    185596, 159290757, 5153, 5012455, 155391258, 5610306, 681452459, 865278334, 170940, 3945327985,
    2911361581, 5617, 57901412, 1800554078, 4277754462,
];

fn check_trails(
    rt: &impl Abort,
    heap: Global,
    bytes: &[u8],
    expected: [Outcome; 15],
) -> Result<(), Fail> {
    let table = table_of(heap, LOPSIDED)?;
    let trace = Trace { bytes };
    let cells = &mut [MARKED; 16];
    check_outcomes(rt, &table, &trace, &Trail, cells, MARKED, &expected)
}

#[test]
fn trail_of_a_lopsided_job(rt: HostRuntime) -> Result<(), Fail> {
    check_trails(&rt, rt.alloc(), LOPSIDED_TRACE, TRAILS.map(Ok))
}

// Node 8 lies to the left of node 6, and below the forks 11, 13, 14 and 15.
#[test]
fn faults_of_a_lopsided_job(rt: HostRuntime) -> Result<(), Fail> {
    let eighth = bad(FrameError::WrongCheck, 8, 12);
    let sixth = bad(FrameError::TooFast, 6, 17);
    let [a, b, c, d, e, _, g, _, i, j, _, l, _, _, _] = TRAILS.map(Ok);
    let expected = [
        a, b, c, d, e, sixth, g, eighth, i, j, eighth, l, eighth, eighth, eighth,
    ];
    check_trails(&rt, rt.alloc(), BROKEN_TRACE, expected)
}

#[test]
fn summary_of_a_lopsided_job(rt: HostRuntime) -> Result<(), Fail> {
    let table = table_of(rt.alloc(), LOPSIDED)?;
    let mut cells = [Cell { outcome: None }; 15];
    let trace = Trace {
        bytes: LOPSIDED_TRACE,
    };
    let expected = Figures {
        count: 21,
        sum: 113_944,
        fastest: 5_827,
        lowest_slip: -58,
        highest_slip: 60,
    };
    assert_eq!(rt; evaluate(&table, &trace, &Summary, &mut cells)??, expected);
    Ok(())
}

fn float_of(heap: Global, job: &[u8]) -> Result<Sums, Fail> {
    let table = table_of(heap, job)?;
    let mut cells = [Cell { outcome: None }; 5];
    let trace = Trace {
        bytes: GROUPED_TRACE,
    };
    Ok(evaluate(&table, &trace, &Float, &mut cells)??)
}

#[test]
fn float_of_two_groupings(rt: HostRuntime) -> Result<(), Fail> {
    let left = Sums {
        sum: 4098.0,
        squares: 16777216.0,
    };
    assert_eq!(rt; float_of(rt.alloc(), LEFT_GROUPED)?, left);
    let right = Sums {
        sum: 4098.0,
        squares: 16777218.0,
    };
    assert_eq!(rt; float_of(rt.alloc(), RIGHT_GROUPED)?, right);
    Ok(())
}

fn told(table: &Table, cells: &mut [Cell<u32>]) -> Result<Outcome, EvaluateRefusal> {
    evaluate(table, &Trace { bytes: PAIR_TRACE }, &Trail, cells)
}

#[test]
fn a_refusal_keeps_the_cells(rt: HostRuntime) -> Result<(), Fail> {
    let mut table = Table::new(rt.alloc())?;
    let mut cells = [MARKED; 2];
    let empty = Err(EvaluateRefusal::EmptyTable);
    let few = Err(EvaluateRefusal::FewCells);
    assert_eq!(rt; told(&table, &mut []), empty);
    assert_eq!(rt; told(&table, &mut cells), empty);
    assert_eq!(rt; cells, [MARKED; 2]);
    assert!(rt; table.load(PAIR).is_ok());
    assert_eq!(rt; told(&table, &mut []), few);
    assert_eq!(rt; told(&table, &mut cells), few);
    assert_eq!(rt; cells, [MARKED; 2]);
    // A refused file leaves no nodes.
    assert!(rt; table.load(&PAIR[0..39]).is_err());
    assert_eq!(rt; told(&table, &mut cells), empty);
    assert_eq!(rt; cells, [MARKED; 2]);
    Ok(())
}

#[test]
fn numbers_of_refusals(rt: HostRuntime) {
    assert_eq!(rt; EvaluateRefusal::EmptyTable.number(), 7);
    assert_eq!(rt; EvaluateRefusal::FewCells.number(), 9);
}
