// The report of an evaluation: the job, the trace, a line for each node and the outcome.
ghost use Rattle.std.specs.Prelude.{◌≡◌, IfSome, IfOk, string_bytes, OnOk};
ghost use Rattle.std.specs.Fmt.{AppendsText};
ghost use Rattle.job.specs.Tables.{nodes_of};
ghost use Rattle.layout.specs.Shape.{nth};
ghost use Rattle.render.specs.Report.{head_text, line_of, report_text};

use crate::counted::Counted;
use crate::node::NodeLine;
use algebra::{Cell, cell_at};
use job::Table;
use std::alloc::{AllocError, Global};
use std::fmt::Display;

// How many nodes the job has, and how many frames the trace.
fn head(heap: Global, nodes: usize, frames: usize) -> Result<String, AllocError>
    ensures { IfOk result (λ s. string_bytes s ≡ head_text nodes frames) }
{
    let job = Counted {
        count: nodes,
        noun: "node",
    };
    let trace = Counted {
        count: frames,
        noun: "frame",
    };
    format!(in heap; "job: {job}\ntrace: {trace}\n")
}

// Adds the line of node `c`; a number that is no node is passed over.
fn add_node<V: Display + Copy>(
    text: &mut String,
    table: &Table,
    cells: &[Cell<V>],
    c: u16,
) -> Result<(), AllocError>
    ensures { OnOk result (AppendsText (string_bytes text.old) (string_bytes text.new) (line_of V.output cells.now c (nth (nodes_of table.now) c))) }
{
    if let Some(node) = table.node(c) {
        let cell = cell_at(cells, c);
        let line = NodeLine {
            number: c,
            node: &node,
            cell: &cell,
        };
        text.writeln(line)?;
    }
    Ok(())
}

// The nodes come in the given order; what a node yields stands in its cell.
pub fn report<V: Display + Copy>(
    heap: Global,
    table: &Table,
    frames: usize,
    order: &[u16],
    cells: &[Cell<V>],
) -> Result<String, AllocError>
    ensures { IfOk result (λ s. IfSome (report_text V.output (nodes_of table.now) frames order.now cells.now) (λ bs. string_bytes s ≡ bs)) }
{
    let nodes = table.len();
    let mut text = head(heap, usize::from(nodes), frames)?;
    for &c in order {
        add_node(&mut text, table, cells, c)?;
    }
    let cell = cell_at(cells, nodes);
    text.writeln(format_args!("outcome: {cell}"))?;
    Ok(text)
}
