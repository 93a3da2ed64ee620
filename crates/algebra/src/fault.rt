// Why a node has no value.
ghost use Rattle.std.specs.Prelude.{◌≡◌, Some};
ghost use Rattle.algebra.specs.Faults.{fault_layer, fault_cause, fault_node, fault_frame};
ghost use Rattle.algebra.specs.Texts.{fault_text};

use frame::Cause;
use std::fmt;

#[derive(Clone, Copy, PartialEq, Eq, Debug)]
pub enum Fault {
    // The source has no such frame for the leaf `node`.
    BadFrame { cause: Cause, node: u16, frame: u32 },
    // The algebra refused to join this frame to those before it in the leaf `node`.
    LeafJoin { cause: Cause, node: u16, frame: u32 },
    // The algebra refused to join the two sides of the fork `node`.
    ForkJoin { cause: Cause, node: u16 },
}

impl Fault {
    // 1 where the source is at fault, 2 where the algebra refused.
    pub fn layer(self) -> u8
        ensures { result ≡ fault_layer self }
    {
        match self {
            Fault::BadFrame { .. } => 1,
            Fault::LeafJoin { .. } | Fault::ForkJoin { .. } => 2,
        }
    }

    // The cause that the source or the algebra gave.
    pub fn cause(self) -> Cause
        ensures { result ≡ fault_cause self }
    {
        match self {
            Fault::BadFrame { cause, .. }
            | Fault::LeafJoin { cause, .. }
            | Fault::ForkJoin { cause, .. } => cause,
        }
    }

    // The node where it came up.
    pub fn node(self) -> u16
        ensures { result ≡ fault_node self }
    {
        match self {
            Fault::BadFrame { node, .. }
            | Fault::LeafJoin { node, .. }
            | Fault::ForkJoin { node, .. } => node,
        }
    }

    // The bad frame, or the one being joined; a fork has none.
    pub fn frame(self) -> Option<u32>
        ensures { result ≡ fault_frame self }
    {
        match self {
            Fault::BadFrame { frame, .. } | Fault::LeafJoin { frame, .. } => Some(frame),
            Fault::ForkJoin { .. } => None,
        }
    }
}

impl fmt::Display for Fault {
    ghost output = { λ x. Some (fault_text x) };

    fn fmt<W: fmt::Write>(&self, f: &mut fmt::Formatter<W>) -> fmt::Result {
        let (layer, cause, node) = (self.layer(), self.cause().number, self.node());
        write!(f, "fault layer {layer} cause {cause} node {node}")?;
        match self.frame() {
            Some(frame) => write!(f, " frame {frame}"),
            None => Ok(()),
        }
    }
}
