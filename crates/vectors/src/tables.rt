// Tables for the tests.
use job::Table;
use std::alloc::Global;
use std::test::Fail;

pub(crate) fn table_of(heap: Global, job: &[u8]) -> Result<Table, Fail> {
    let mut table = Table::new(heap)?;
    table.load(job)?;
    Ok(table)
}
