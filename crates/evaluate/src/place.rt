// A node of a table, which is there by its type, and what stands at it.
ghost use Rattle.std.specs.Prelude.{◌≤◌, length};
ghost use Rattle.job.specs.Tables.{nodes_of};

use algebra::{Cell, Fault, Span, cell_at};
use job::Table;
use layout::Node;

// The node of this number, counted from 1.
#[derive(Clone, Copy)]
pub(crate) struct Place<'a> {
    table: &'a Table,
    pub(crate) number: u16,
    ghost low: { 1 ≤ number },
    ghost high: { number ≤ length (nodes_of table.now) },
}

// The frames of a leaf, or the two sides of a fork.
#[derive(Clone, Copy)]
pub(crate) enum Part<'a> {
    Leaf(Span),
    Fork { left: Place<'a>, right: Place<'a> },
}

impl<'a> Place<'a> {
    ghost use Rattle.std.specs.Prelude.{◌≡◌, MatchOption};
    ghost use Rattle.algebra.specs.Cells.{cell_at};
    ghost use Rattle.layout.specs.Shape.{Nth};
    ghost use Rattle.evaluate.specs.Places.{Root, Stands};

    // The last node, where the table has any.
    pub(crate) fn root(table: &'a Table) -> Option<Place<'a>>
        ensures { MatchOption result (length (nodes_of table.now) ≡ 0) (Root table.now) }
    {
        let number = table.len();
        if number == 0 {
            None
        } else {
            Some(Place { table, number })
        }
    }

    // What the table has at the number.
    fn node(self) -> Node
        ensures { Nth (nodes_of self.entry.table.now) self.entry.number result }
    {
        self.table.node(self.number).unwrap()
    }

    // A leaf's frames, or the two lower nodes that a fork names.
    pub(crate) fn part(self) -> Part<'a>
        ensures { Stands self.entry result }
    {
        let table = self.table;
        match self.node() {
            Node::Leaf { first, count } => Part::Leaf(Span { first, count }),
            Node::Fork { left, right } => Part::Fork {
                left: Place {
                    table,
                    number: left,
                },
                right: Place {
                    table,
                    number: right,
                },
            },
        }
    }

    // What the node's cell holds.
    pub(crate) fn outcome<V: Copy>(self, cells: &[Cell<V>]) -> Option<Result<V, Fault>>
        ensures { result ≡ (cell_at cells.now self.entry.number).outcome }
    {
        cell_at(cells, self.number).outcome
    }
}
