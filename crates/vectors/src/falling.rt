// Joins that the value algebra refuses, within a leaf and at a fork.
use crate::outcomes::{bad, check_outcomes};
use crate::rising::{FALLING, Rising};
use crate::tables::table_of;
use algebra::{Cell, Fault};
use frame::{Cause, FrameError, Trace};
use job::Table;
use std::process::Abort;
use std::test::Fail;

type Outcome = Result<u16, Fault>;

// Leaf 1 of frames 0 to 2, leaf 2 of frames 3 and 4, and fork 3 of both.
const JOB: &[u8] = b"\0\x03\0\x01\
    \x01\0\0\x02\0\0\0\0\0\x03\0\0\
    \x01\0\0\x03\0\0\0\x03\0\x02\0\0\
    \x02\0\0\0\0\x01\0\x02\0\0\0\0";

// Fronts 1, 2, 2, and 2, 3.
const NONE: &[u8] = b"\0\x01\0\0\0\0\0\x4c\
    \0\x02\0\0\0\0\0\x86\
    \0\x02\0\0\0\0\0\x86\
    \0\x02\0\0\0\0\0\x86\
    \0\x03\0\0\0\0\0\xc0";

// Fronts 1, 3, 2, and 3, 3.
const LEFT: &[u8] = b"\0\x01\0\0\0\0\0\x4c\
    \0\x03\0\0\0\0\0\xc0\
    \0\x02\0\0\0\0\0\x86\
    \0\x03\0\0\0\0\0\xc0\
    \0\x03\0\0\0\0\0\xc0";

// Fronts 1, 2, 3, and 3, 2.
const RIGHT: &[u8] = b"\0\x01\0\0\0\0\0\x4c\
    \0\x02\0\0\0\0\0\x86\
    \0\x03\0\0\0\0\0\xc0\
    \0\x03\0\0\0\0\0\xc0\
    \0\x02\0\0\0\0\0\x86";

// Fronts 3, 2, 1, and 3, 2.
const BOTH: &[u8] = b"\0\x03\0\0\0\0\0\xc0\
    \0\x02\0\0\0\0\0\x86\
    \0\x01\0\0\0\0\0\x4c\
    \0\x03\0\0\0\0\0\xc0\
    \0\x02\0\0\0\0\0\x86";

// Fronts 1, 2, 3, and 1, 2.
const FORK: &[u8] = b"\0\x01\0\0\0\0\0\x4c\
    \0\x02\0\0\0\0\0\x86\
    \0\x03\0\0\0\0\0\xc0\
    \0\x01\0\0\0\0\0\x4c\
    \0\x02\0\0\0\0\0\x86";

// Fronts 3, 2, a wrong check, and a wrong check, 1.
const FALL_FIRST: &[u8] = b"\0\x03\0\0\0\0\0\xc0\
    \0\x02\0\0\0\0\0\x86\
    \0\x02\0\0\0\0\0\x82\
    \0\x02\0\0\0\0\0\x82\
    \0\x01\0\0\0\0\0\x4c";

// Fronts 3, a wrong check, 2, and 3, 1.
const CHECK_FIRST: &[u8] = b"\0\x03\0\0\0\0\0\xc0\
    \0\x02\0\0\0\0\0\x82\
    \0\x02\0\0\0\0\0\x86\
    \0\x03\0\0\0\0\0\xc0\
    \0\x01\0\0\0\0\0\x4c";

fn fall(node: u16, frame: u32) -> Outcome {
    Err(Fault::LeafJoin {
        cause: FALLING,
        node,
        frame,
    })
}

// The outcomes of the two leaves and of the fork, for the frames of these bytes.
fn check(rt: &impl Abort, table: &Table, bytes: &[u8], expected: [Outcome; 3]) -> Result<(), Fail> {
    let mark = Cell { outcome: None };
    let trace = Trace { bytes };
    check_outcomes(rt, table, &trace, &Rising, &mut [mark; 3], mark, &expected)
}

#[test]
fn refused_joins(rt: HostRuntime) -> Result<(), Fail> {
    let table = table_of(rt.alloc(), JOB)?;
    let fork = Err(Fault::ForkJoin {
        cause: FALLING,
        node: 3,
    });
    check(&rt, &table, NONE, [Ok(2), Ok(3), Ok(3)])?;
    check(&rt, &table, LEFT, [fall(1, 2), Ok(3), fall(1, 2)])?;
    check(&rt, &table, RIGHT, [Ok(3), fall(2, 4), fall(2, 4)])?;
    check(&rt, &table, BOTH, [fall(1, 1), fall(2, 4), fall(1, 1)])?;
    check(&rt, &table, FORK, [Ok(3), Ok(2), fork])
}

// The leftmost fault is named, whatever its layer.
#[test]
fn refused_joins_and_bad_frames(rt: HostRuntime) -> Result<(), Fail> {
    let table = table_of(rt.alloc(), JOB)?;
    let joined = fall(1, 1);
    check(
        &rt,
        &table,
        FALL_FIRST,
        [joined, bad(FrameError::WrongCheck, 2, 3), joined],
    )?;
    let read = bad(FrameError::WrongCheck, 1, 1);
    check(&rt, &table, CHECK_FIRST, [read, fall(2, 4), read])
}

fn parts(fault: Fault) -> (u8, u8, u16, Option<u32>) {
    (
        fault.layer(),
        fault.cause().number,
        fault.node(),
        fault.frame(),
    )
}

// Layer, cause, node and frame of each kind of fault.
#[test]
fn parts_of_faults(rt: HostRuntime) {
    let read = Fault::BadFrame {
        cause: Cause::from(FrameError::TooFast),
        node: 8,
        frame: 4_294_967_295,
    };
    assert_eq!(rt; parts(read), (1, 4, 8, Some(4_294_967_295)));
    let leaf = Fault::LeafJoin {
        cause: FALLING,
        node: 1,
        frame: 2,
    };
    assert_eq!(rt; parts(leaf), (2, 200, 1, Some(2)));
    let fork = Fault::ForkJoin {
        cause: FALLING,
        node: 3,
    };
    assert_eq!(rt; parts(fork), (2, 200, 3, None));
}
