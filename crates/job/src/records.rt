// The pass over the records on the chain.
ghost use Rattle.std.specs.Prelude.{◌≡◌, [], Ok};
ghost use Rattle.layout.specs.Chain.{chain};
ghost use Rattle.layout.specs.Layout.{count};
ghost use Rattle.layout.specs.Records.{records};
ghost use Rattle.layout.specs.Steps.{map_ok};
ghost use Rattle.job.specs.Rows.{items_of};

use crate::file::JobFile;
use crate::row::Row;
use layout::{LoadRefusal, Node};

// Reads the node of each record on the chain.
pub(crate) fn decode_all(
    file: &JobFile<'_>,
    order: &[u16],
    nodes: &mut Row<Node>,
) -> Result<(), LoadRefusal>
    requires { chain file.now.bytes.now (count file.now.bytes.now) ≡ Ok order.now }
    ensures { map_ok (λ _. items_of nodes.new) result ≡ records file.now.bytes.now [] order.now }
{
    nodes.clear();
    for (c, x) in (1..).zip(order) {
        let node = file.node(*x).ok_or(LoadRefusal::Content(c))?;
        nodes.push(node);
    }
    Ok(())
}
