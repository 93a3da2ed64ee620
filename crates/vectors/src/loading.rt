// Job files that load, and the tables that they give.
use crate::samples::{LEFT_GROUPED, LOPSIDED, PAIR};
use job::Table;
use layout::{Node, Parent};
use std::process::Abort;
use std::test::Fail;

fn leaf(first: u32, count: u16) -> Node {
    Node::Leaf { first, count }
}

fn fork(left: u16, right: u16) -> Node {
    Node::Fork { left, right }
}

// The table has these nodes, numbered from 1, and no other.
fn check_nodes(rt: &impl Abort, table: &Table, nodes: &[(Node, Parent)]) {
    assert_eq!(rt; usize::from(table.len()), nodes.len());
    for (c, (node, parent)) in (1..=table.len()).zip(nodes) {
        assert_eq!(rt; table.node(c), Some(*node));
        assert_eq!(rt; table.parent(c), Some(*parent));
    }
    for c in [0, table.len().saturating_add(1), u16::MAX] {
        assert_eq!(rt; table.node(c), None);
        assert_eq!(rt; table.parent(c), None);
    }
}

// A shorter job replaces a longer one, and a longer one a shorter.
#[test]
fn loading_replaces(rt: HostRuntime) -> Result<(), Fail> {
    let pair = [
        (leaf(0, 1), Parent::LeftOf(3)),
        (leaf(1, 1), Parent::RightOf(3)),
        (fork(1, 2), Parent::Root),
    ];
    let left_grouped = [
        (leaf(0, 1), Parent::LeftOf(4)),
        (leaf(1, 1), Parent::RightOf(4)),
        (leaf(2, 1), Parent::RightOf(5)),
        (fork(1, 2), Parent::LeftOf(5)),
        (fork(4, 3), Parent::Root),
    ];
    let mut table = Table::new(rt.alloc())?;
    check_nodes(&rt, &table, &[]);
    table.load(LEFT_GROUPED)?;
    check_nodes(&rt, &table, &left_grouped);
    table.load(PAIR)?;
    check_nodes(&rt, &table, &pair);
    table.load(LEFT_GROUPED)?;
    check_nodes(&rt, &table, &left_grouped);
    table.load(LEFT_GROUPED)?;
    check_nodes(&rt, &table, &left_grouped);
    Ok(())
}

// Nodes are numbered along the chain, whatever the order of the records.
#[test]
fn the_chain_numbers_the_nodes(rt: HostRuntime) -> Result<(), Fail> {
    let mut table = Table::new(rt.alloc())?;
    table.load(LOPSIDED)?;
    let nodes = [
        (leaf(19, 2), Parent::RightOf(15)),
        (leaf(4, 4), Parent::RightOf(7)),
        (leaf(3, 1), Parent::RightOf(5)),
        (leaf(0, 3), Parent::LeftOf(5)),
        (fork(4, 3), Parent::LeftOf(7)),
        (leaf(16, 3), Parent::RightOf(14)),
        (fork(5, 2), Parent::LeftOf(10)),
        (leaf(10, 5), Parent::RightOf(11)),
        (leaf(8, 2), Parent::RightOf(10)),
        (fork(7, 9), Parent::LeftOf(11)),
        (fork(10, 8), Parent::LeftOf(13)),
        (leaf(15, 1), Parent::RightOf(13)),
        (fork(11, 12), Parent::LeftOf(14)),
        (fork(13, 6), Parent::LeftOf(15)),
        (fork(14, 1), Parent::Root),
    ];
    check_nodes(&rt, &table, &nodes);
    Ok(())
}

// Jobs of one leaf: the bytes of its record from the first frame on, and the leaf.
const LEAVES: [([u8; 6], u32, u16); 5] = [
    ([0, 0, 0, 0, 0, 1], 0, 1),
    ([0, 0, 0, 0, 1, 0], 0, 256),
    ([1, 2, 3, 4, 0, 255], 16_909_060, 255),
    // The last frame is 4,294,967,295.
    ([255, 255, 255, 255, 0, 1], 4_294_967_295, 1),
    ([255, 255, 255, 0, 1, 0], 4_294_967_040, 256),
];

#[test]
fn lone_leaves(rt: HostRuntime) -> Result<(), Fail> {
    let mut table = Table::new(rt.alloc())?;
    for ([a, b, c, d, e, f], first, count) in LEAVES {
        table.load(&[0, 1, 0, 1, 1, 0, 0, 0, a, b, c, d, e, f, 0, 0])?;
        check_nodes(&rt, &table, &[(leaf(first, count), Parent::Root)]);
    }
    Ok(())
}

// Record 2 is the whole chain; records 1 and 3 are nonsense.
const AMID: &[u8] = b"\0\x03\0\x02\
    \xff\xff\xff\xff\xff\xff\xff\xff\xff\xff\xff\xff\
    \x01\0\0\0\0\0\0\x05\0\x02\0\0\
    \x02\0\0\x03\0\0\0\0\0\0\0\x01";

#[test]
fn records_off_the_chain(rt: HostRuntime) -> Result<(), Fail> {
    let mut table = Table::new(rt.alloc())?;
    table.load(AMID)?;
    check_nodes(&rt, &table, &[(leaf(5, 2), Parent::Root)]);
    Ok(())
}
