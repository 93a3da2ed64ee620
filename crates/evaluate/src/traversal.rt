// The order in which one processor works the nodes of a table.
ghost use Rattle.std.specs.Prelude.{IfOk, OnOk};
ghost use Rattle.job.specs.Tables.{nodes_of};
ghost use Rattle.evaluate.specs.Order.{Appended, Ordered};

use crate::place::{Part, Place};
use job::Table;
use std::alloc::{AllocError, Global};

// Appends a node after all that stands on its sides: the left side, the right side, then the node itself.
fn visit(order: &mut Vec<u16>, place: Place) -> Result<(), AllocError>
    ensures { OnOk result (Appended (nodes_of place.entry.table.now) place.entry.number order.old.items order.new.items) }
{
    match place.part() {
        Part::Leaf(_) => {}
        Part::Fork { left, right } => {
            visit(order, left)?;
            visit(order, right)?;
        }
    }
    order.push(place.number)?;
    Ok(())
}

// The nodes in left-to-right order: for each fork its left side, its right side, then the fork. An empty table has none.
pub fn left_to_right(heap: Global, table: &Table) -> Result<Vec<u16>, AllocError>
    ensures { IfOk result (λ v. Ordered (nodes_of table.now) v.items) }
{
    let mut order = Vec::with_capacity(heap, usize::from(table.len()))?;
    if let Some(root) = Place::root(table) {
        visit(&mut order, root)?;
    }
    Ok(order)
}
