// The pass over the forks: every node but the root is named exactly once.
ghost use Rattle.std.specs.Prelude.{◌≡◌, ◌-◌, ◌≤◌, length, take, position};
ghost use Rattle.job.specs.Names.{unnamed};
ghost use Rattle.layout.specs.Naming.{name, claims, named, complete, parents};
ghost use Rattle.layout.specs.Steps.{map_ok};
ghost use Rattle.job.specs.Rows.{items_of};

use crate::row::Row;
use layout::{LoadRefusal, Node, Parent};

// Fork `f` names node `c`, whose parent is then `p`.
fn claim(found: &mut [Parent], f: u16, c: u16, p: Parent) -> Result<(), LoadRefusal>
    requires { f ≤ length found.old }
    ensures { map_ok (λ _. found.new) result ≡ name f c p found.old }
{
    // `Root` stands for a node that is not named yet.
    if c == 0 || c >= f || found[usize::from(c) - 1] != Parent::Root {
        return Err(LoadRefusal::Naming(f));
    }
    found[usize::from(c) - 1] = p;
    Ok(())
}

// Node `f` names its sides: a leaf has none, a fork names left before right.
fn claim_sides(found: &mut [Parent], f: u16, node: Node) -> Result<(), LoadRefusal>
    requires { f ≤ length found.old }
    ensures { map_ok (λ _. found.new) result ≡ claims f node found.old }
{
    match node {
        Node::Leaf { .. } => Ok(()),
        Node::Fork { left, right } => {
            claim(found, f, left, Parent::LeftOf(f))?;
            claim(found, f, right, Parent::RightOf(f))
        }
    }
}

// The nodes name their sides, in the order of their numbers.
fn claim_all(nodes: &[Node], found: &mut [Parent]) -> Result<(), LoadRefusal>
    requires few { length nodes.now ≤ 1024 }
    requires len { length found.old ≡ length nodes.now }
    ensures { map_ok (λ _. found.new) result ≡ named 1 found.old nodes.now }
{
    for (f, node) in (1..).zip(nodes) {
        claim_sides(found, f, *node)?;
    }
    Ok(())
}

// The index of the first node that has no name.
fn first_unnamed(parents: &[Parent]) -> Option<usize>
    ensures { result ≡ position unnamed parents.now }
{
    parents.iter().position(|p| *p == Parent::Root)
}

// Every node but the last has a parent.
fn check_complete(found: &[Parent]) -> Result<(), LoadRefusal>
    requires { length found.now ≤ 1024 }
    ensures { result ≡ complete 1 (take (length found.now - 1) found.now) }
{
    let [others @ .., _] = found else {
        return Ok(());
    };
    match first_unnamed(others) {
        Some(i) => Err(LoadRefusal::Naming(i as u16 + 1)),
        None => Ok(()),
    }
}

// Finds the parent of each node.
pub(crate) fn find_parents(nodes: &Row<Node>, found: &mut Row<Parent>) -> Result<(), LoadRefusal>
    ensures { map_ok (λ _. items_of found.new) result ≡ parents (items_of nodes.now) }
{
    found.fill(nodes.items.len(), Parent::Root);
    claim_all(&nodes.items, &mut found.items)?;
    check_complete(&found.items)
}
