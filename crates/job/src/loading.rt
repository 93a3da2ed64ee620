// The passes over a job file, one after another.
ghost use Rattle.std.specs.Prelude.{◌≡◌, Ok, OnOk};
ghost use Rattle.std.specs.List.{AllByRecursion};
ghost use Rattle.layout.specs.Loaded.{loaded};
ghost use Rattle.layout.specs.Naming.{parents as naming};
ghost use Rattle.layout.specs.Shape.{Ranged};
ghost use Rattle.layout.specs.Steps.{map_ok};
ghost use Rattle.job.specs.Rows.{items_of};

use crate::file::JobFile;
use crate::naming::find_parents;
use crate::records::decode_all;
use crate::row::Row;
use crate::walk::follow;
use layout::{LoadRefusal, Node, Parent};

// Reads the job in `bytes`: header, chain, records, naming.
pub(crate) fn fill(
    bytes: &[u8],
    nodes: &mut Row<Node>,
    parents: &mut Row<Parent>,
) -> Result<(), LoadRefusal>
    ensures value { map_ok (λ _. items_of nodes.new) result ≡ loaded bytes.now }
    ensures ranged { OnOk result (AllByRecursion Ranged (items_of nodes.new)) }
    ensures wired { OnOk result (naming (items_of nodes.new) ≡ Ok (items_of parents.new)) }
{
    let file = JobFile::parse(bytes)?;
    let order = follow(&file)?;
    decode_all(&file, &order, nodes)?;
    find_parents(nodes, parents)
}
