// Tables of jobs.
ghost use Rattle.std.specs.Prelude.{◌≡◌, true, List, [], length, is_ok, IfOk, Ok, Err};
ghost use Rattle.std.specs.List.{AllByRecursion, AllByRecursion-prop};
ghost use Rattle.std.proofs.Props.{props};
ghost use Rattle.layout.specs.declared.refusal.LoadRefusal.{LoadRefusal};
ghost use Rattle.layout.specs.Follows.{Follows};
ghost use Rattle.layout.specs.Loaded.{loaded, contents};
ghost use Rattle.layout.specs.Naming.{parents as naming};
ghost use Rattle.layout.specs.Refused.{Refused};
ghost use Rattle.layout.specs.Shape.{nth, Ranged};
ghost use Rattle.layout.specs.Steps.{map_ok};
ghost use Rattle.layout.proofs.Ranges.{Ranged-prop};
ghost use Rattle.job.specs.Rows.{items_of};

use crate::loading::fill;
use crate::row::Row;
use layout::{LoadRefusal, Node, Parent};
use std::alloc::{AllocError, Global};

// A job: its nodes, numbered from 1, and the parent of each. The room for the largest job is taken when the table is made,
// so loading asks for no memory.
#[derive(Drop)]
pub struct Table {
    nodes: Row<Node>,
    parents: Row<Parent>,
    ghost ranged: { AllByRecursion Ranged (items_of nodes) } by { AllByRecursion-prop Ranged Ranged-prop (items_of nodes) },
    ghost wired: { naming (items_of nodes) ≡ Ok (items_of parents) } by { Prim.hlevel props },
}

impl Table {
    ghost use Rattle.job.specs.Tables.{nodes_of, parents_of, ParentOf};

    // An empty table, with room for the largest job.
    pub fn new(heap: Global) -> Result<Table, AllocError>
        ensures { IfOk result (λ t. nodes_of t ≡ []) }
    {
        let nodes = Row::new(heap)?;
        let parents = Row::new(heap)?;
        Ok(Table { nodes, parents })
    }

    // Loads the job in `bytes`; a refusal leaves the table empty.
    pub fn load(&mut self, bytes: &[u8]) -> Result<(), LoadRefusal>
        ensures answer { result ≡ map_ok (λ _. tt) (loaded bytes.now) }
        ensures refused { (e : LoadRefusal) → (result ≡ Err e → Refused bytes.now e) × (Refused bytes.now e → result ≡ Err e) }
        ensures exact { (ns : List Node) → (Follows bytes.now ns → (is_ok result ≡ true) × (nodes_of self.new ≡ ns)) × (is_ok result ≡ true → nodes_of self.new ≡ ns → Follows bytes.now ns) }
        ensures table { nodes_of self.new ≡ contents (loaded bytes.now) }
    {
        let r = fill(bytes, &mut self.nodes, &mut self.parents);
        if r.is_err() {
            self.nodes.clear();
            self.parents.clear();
        }
        r
    }

    // How many nodes the job has.
    pub fn len(&self) -> u16
        ensures { result ≡ length (nodes_of self.now) }
    {
        self.nodes.items.len() as u16
    }

    // Node `c`, counted from 1.
    pub fn node(&self, c: u16) -> Option<Node>
        ensures { result ≡ nth (nodes_of self.now) c }
    {
        self.nodes.item(c)
    }

    // The fork that names node `c`, and on which side, or that it is the root.
    #[tactic(auto, using(crate::proofs::Tabled::parent_of))]
    pub fn parent(&self, c: u16) -> Option<Parent>
        ensures value { result ≡ nth (parents_of self.now) c }
        ensures named { ParentOf (nodes_of self.now) c result }
    {
        self.parents.item(c)
    }
}
