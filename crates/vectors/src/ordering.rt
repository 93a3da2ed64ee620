// The nodes of jobs from left to right.
use crate::samples::{LEFT_GROUPED, LOPSIDED, RIGHT_GROUPED};
use crate::tables::table_of;
use evaluate::left_to_right;
use job::Table;
use std::alloc::Global;
use std::process::Abort;
use std::test::Fail;

fn check_order(rt: &impl Abort, heap: Global, job: &[u8], expected: &[u16]) -> Result<(), Fail> {
    let table = table_of(heap, job)?;
    let order = left_to_right(heap, &table)?;
    assert_eq!(rt; order.as_slice(), expected);
    Ok(())
}

#[test]
fn sides_before_forks(rt: HostRuntime) -> Result<(), Fail> {
    let lopsided = [4, 3, 5, 2, 7, 9, 10, 8, 11, 12, 13, 6, 14, 1, 15];
    check_order(&rt, rt.alloc(), LOPSIDED, &lopsided)?;
    check_order(&rt, rt.alloc(), LEFT_GROUPED, &[1, 2, 4, 3, 5])?;
    check_order(&rt, rt.alloc(), RIGHT_GROUPED, &[1, 2, 3, 4, 5])
}

#[test]
fn no_nodes_no_order(rt: HostRuntime) -> Result<(), Fail> {
    let table = Table::new(rt.alloc())?;
    let order = left_to_right(rt.alloc(), &table)?;
    assert_eq!(rt; order.len(), 0);
    Ok(())
}
