// The line of a node in a report: what it is and what it yields.
ghost use Rattle.render.specs.Nodes.{line_text};

use algebra::Cell;
use layout::Node;
use std::fmt;

#[derive(Clone, Copy, Debug, PartialEq, Eq)]
pub struct NodeLine<'a, V> {
    pub number: u16,
    pub node: &'a Node,
    pub cell: &'a Cell<V>,
}

impl<'a, V: fmt::Display> fmt::Display for NodeLine<'a, V> {
    ghost output = { λ x. line_text V.output x.number x.node.now x.cell.now };

    fn fmt<W: fmt::Write>(&self, f: &mut fmt::Formatter<W>) -> fmt::Result {
        write!(f, "node {}: {}: {}", self.number, self.node, self.cell)
    }
}
