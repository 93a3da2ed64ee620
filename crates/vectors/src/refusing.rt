// Every reason to refuse a job file.
use crate::samples::{LEFT_GROUPED, PAIR};
use job::Table;
use layout::LoadRefusal;
use std::alloc::Global;
use std::process::Abort;
use std::test::Fail;

// The places and values of the bytes that differ from a good job file's, and the refusal.
type Row = (&'static [(usize, u8)], LoadRefusal);

// A refusal leaves a table empty that held a job.
fn check_refused(
    rt: &impl Abort,
    table: &mut Table,
    bytes: &[u8],
    refusal: LoadRefusal,
) -> Result<(), Fail> {
    check_row(rt, table, bytes, &(&[], refusal))
}

// The same for the bytes of a row; a message shows its edits.
fn check_row(
    rt: &impl Abort,
    table: &mut Table,
    bytes: &[u8],
    (edits, refusal): &Row,
) -> Result<(), Fail> {
    table.load(PAIR)?;
    assert_eq!(rt; table.load(bytes), Err(*refusal), "edits: {edits:?}");
    assert_eq!(rt; table.len(), 0, "edits: {edits:?}");
    assert_eq!(rt; table.node(1), None, "edits: {edits:?}");
    assert_eq!(rt; table.parent(1), None, "edits: {edits:?}");
    Ok(())
}

// The good job file with some bytes replaced.
fn edited(heap: Global, good: &[u8], edits: &[(usize, u8)]) -> Result<Vec<u8>, Fail> {
    let mut bytes = good.to_vec(heap)?;
    for (at, value) in edits {
        let byte = bytes.get_mut(*at).ok_or_else(|| Fail::new("no such byte"))?;
        *byte = *value;
    }
    Ok(bytes)
}

fn check_rows(rt: &impl Abort, heap: Global, good: &[u8], rows: &[Row]) -> Result<(), Fail> {
    let mut table = Table::new(heap)?;
    for row in rows {
        let bytes = edited(heap, good, row.0)?;
        check_row(rt, &mut table, &bytes, row)?;
    }
    Ok(())
}

#[test]
fn sizes(rt: HostRuntime) -> Result<(), Fail> {
    let mut table = Table::new(rt.alloc())?;
    check_refused(&rt, &mut table, &[], LoadRefusal::Size)?;
    check_refused(&rt, &mut table, &PAIR[0..3], LoadRefusal::Size)?;
    check_refused(&rt, &mut table, &PAIR[0..4], LoadRefusal::Size)?;
    check_refused(&rt, &mut table, &PAIR[0..39], LoadRefusal::Size)?;
    check_refused(&rt, &mut table, &[0, 0, 0, 0], LoadRefusal::Size)?;
    check_refused(&rt, &mut table, &[0, 0, 0, 1], LoadRefusal::Size)?;
    // One byte too many, and a bad first index.
    let mut long = PAIR.to_vec(rt.alloc())?;
    long.push(0)?;
    check_refused(&rt, &mut table, &long, LoadRefusal::Size)?;
    let long = edited(rt.alloc(), &long, &[(3, 0)])?;
    check_refused(&rt, &mut table, &long, LoadRefusal::Size)
}

// Files of 1,024 and of 1,025 records, of which only the first is on the chain.
#[test]
fn most_records(rt: HostRuntime) -> Result<(), Fail> {
    let mut table = Table::new(rt.alloc())?;
    let zeros = vec![in rt.alloc(); 0; 12_292]?;
    let most = edited(rt.alloc(), &zeros, &[(0, 4), (3, 1), (4, 1), (13, 1)])?;
    table.load(&most)?;
    assert_eq!(rt; table.len(), 1);
    let zeros = vec![in rt.alloc(); 0; 12_304]?;
    let more = edited(
        rt.alloc(),
        &zeros,
        &[(0, 4), (1, 1), (3, 1), (4, 1), (13, 1)],
    )?;
    check_refused(&rt, &mut table, &more, LoadRefusal::Size)
}

// Of the pair, whose records begin at bytes 4, 16 and 28. The place of a bad link is the record that holds it.
const LINKS: [Row; 9] = [
    // The first index is 0, above the number of records, far above it.
    (&[(3, 0)], LoadRefusal::Link(0)),
    (&[(3, 4)], LoadRefusal::Link(0)),
    (&[(2, 1)], LoadRefusal::Link(0)),
    // A link above the number of records.
    (&[(19, 4)], LoadRefusal::Link(2)),
    // A link to itself.
    (&[(7, 1)], LoadRefusal::Link(1)),
    (&[(19, 2)], LoadRefusal::Link(2)),
    // The last record links back to the first, and to the second.
    (&[(31, 1)], LoadRefusal::Link(3)),
    (&[(31, 2)], LoadRefusal::Link(3)),
    // Records 2, 3, 1 and then 2 again.
    (&[(3, 2), (31, 1)], LoadRefusal::Link(1)),
];

#[test]
fn bad_links(rt: HostRuntime) -> Result<(), Fail> {
    check_rows(&rt, rt.alloc(), PAIR, &LINKS)
}

// Of the pair. The place of bad content is the node, counted along the chain.
const CONTENTS: [Row; 19] = [
    // Kinds 0 and 3, and a byte 1 that is not zero.
    (&[(4, 0)], LoadRefusal::Content(1)),
    (&[(4, 3)], LoadRefusal::Content(1)),
    (&[(5, 1)], LoadRefusal::Content(1)),
    (&[(28, 3)], LoadRefusal::Content(3)),
    (&[(29, 1)], LoadRefusal::Content(3)),
    // Bytes 10 and 11 of a leaf.
    (&[(14, 1)], LoadRefusal::Content(1)),
    (&[(15, 1)], LoadRefusal::Content(1)),
    // Bytes 8 to 11 of a fork.
    (&[(36, 1)], LoadRefusal::Content(3)),
    (&[(37, 1)], LoadRefusal::Content(3)),
    (&[(38, 1)], LoadRefusal::Content(3)),
    (&[(39, 1)], LoadRefusal::Content(3)),
    // Counts 0, 257 and 512.
    (&[(13, 0)], LoadRefusal::Content(1)),
    (&[(12, 1)], LoadRefusal::Content(1)),
    (&[(12, 2), (13, 0)], LoadRefusal::Content(1)),
    // First frame 4,294,967,295 and count 2; first frame 4,294,967,041 and count 256.
    (
        &[(8, 255), (9, 255), (10, 255), (11, 255), (13, 2)],
        LoadRefusal::Content(1),
    ),
    (
        &[(8, 255), (9, 255), (10, 255), (11, 1), (12, 1), (13, 0)],
        LoadRefusal::Content(1),
    ),
    // Nodes 2 and 3 are bad.
    (&[(16, 0), (28, 0)], LoadRefusal::Content(2)),
    // Records 2, 3 and 1: record 1 is bad, and then record 2 too.
    (&[(3, 2), (31, 1), (7, 0), (4, 0)], LoadRefusal::Content(3)),
    (
        &[(3, 2), (31, 1), (7, 0), (4, 0), (16, 0)],
        LoadRefusal::Content(1),
    ),
];

#[test]
fn bad_contents(rt: HostRuntime) -> Result<(), Fail> {
    check_rows(&rt, rt.alloc(), PAIR, &CONTENTS)
}

// Of the pair, whose fork has its left side in bytes 32 and 33 and its right side in bytes 34 and 35.
const SIDES: [Row; 10] = [
    // Node 0.
    (&[(33, 0)], LoadRefusal::Naming(3)),
    (&[(35, 0)], LoadRefusal::Naming(3)),
    // The fork itself.
    (&[(33, 3)], LoadRefusal::Naming(3)),
    (&[(35, 3)], LoadRefusal::Naming(3)),
    // Nodes 4 and 258.
    (&[(33, 4)], LoadRefusal::Naming(3)),
    (&[(35, 4)], LoadRefusal::Naming(3)),
    (&[(34, 1)], LoadRefusal::Naming(3)),
    // One node on both sides, so that the other is never named.
    (&[(35, 1)], LoadRefusal::Naming(3)),
    (&[(33, 2)], LoadRefusal::Naming(3)),
    // Three leaves.
    (&[(28, 1), (37, 1)], LoadRefusal::Naming(1)),
];

// Of the left grouping, whose forks 4 and 5 have their sides in bytes 45 and 47, and 57 and 59.
const NAMES: [Row; 6] = [
    // Fork 5 names node 1, and then node 2, as fork 4 does.
    (&[(57, 1)], LoadRefusal::Naming(5)),
    (&[(59, 2)], LoadRefusal::Naming(5)),
    // Fork 4 names node 5.
    (&[(45, 5)], LoadRefusal::Naming(4)),
    // Both forks name a wrong node.
    (&[(45, 0), (57, 0)], LoadRefusal::Naming(4)),
    // Fork 4 is a leaf in place of a fork, so that nodes 1 and 2 are never named; then fork 5 so, and nodes 3 and 4.
    (&[(40, 1), (49, 1)], LoadRefusal::Naming(1)),
    (&[(52, 1), (61, 1)], LoadRefusal::Naming(3)),
];

#[test]
fn bad_names(rt: HostRuntime) -> Result<(), Fail> {
    check_rows(&rt, rt.alloc(), PAIR, &SIDES)?;
    check_rows(&rt, rt.alloc(), LEFT_GROUPED, &NAMES)
}

// A bad link goes before bad content, bad content before a bad side, and a bad side before a node that is never named.
const SEVERAL: [Row; 4] = [
    (&[(4, 0), (55, 1)], LoadRefusal::Link(5)),
    (&[(45, 0), (52, 0)], LoadRefusal::Content(5)),
    (&[(45, 2), (59, 2)], LoadRefusal::Naming(4)),
    (&[(40, 1), (49, 1), (57, 5)], LoadRefusal::Naming(5)),
];

#[test]
fn several_reasons(rt: HostRuntime) -> Result<(), Fail> {
    check_rows(&rt, rt.alloc(), LEFT_GROUPED, &SEVERAL)
}

// The number and the place of each kind.
#[test]
fn numbers_and_places(rt: HostRuntime) {
    for (refusal, number, place) in [
        (LoadRefusal::Size, 1, 0),
        (LoadRefusal::Link(0), 2, 0),
        (LoadRefusal::Link(1_024), 2, 1_024),
        (LoadRefusal::Content(5), 3, 5),
        (LoadRefusal::Naming(3), 4, 3),
    ] {
        assert_eq!(rt; (refusal.number(), refusal.place()), (number, place));
    }
}
