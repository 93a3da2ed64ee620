// What a node's cell holds: nothing, a value or a fault.
ghost use Rattle.algebra.specs.Texts.{cell_text};

use crate::fault::Fault;
use std::fmt;

#[derive(Clone, Copy, PartialEq, Eq, Debug)]
pub struct Cell<V> {
    pub outcome: Option<Result<V, Fault>>,
}

impl<V: fmt::Display> fmt::Display for Cell<V> {
    ghost output = { λ x. cell_text V.Display.output x.outcome };

    fn fmt<W: fmt::Write>(&self, f: &mut fmt::Formatter<W>) -> fmt::Result {
        match &self.outcome {
            Some(Ok(value)) => write!(f, "value {value}"),
            Some(Err(fault)) => write!(f, "{fault}"),
            None => f.write_str("nothing"),
        }
    }
}
