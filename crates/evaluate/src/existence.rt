// That a table's nodes have outcomes, before any of them is worked.
ghost use Rattle.std.specs.Prelude.{◌≡◌, length};
ghost use Rattle.job.specs.Tables.{nodes_of};
ghost use Rattle.evaluate.specs.Evaluates.{OneOutcomeEach};

use job::Table;

// The number of nodes, with the theorem that each of them has just one outcome, whatever the source and the algebra.
pub fn nodes_with_outcomes<V>(table: &Table) -> u16
    ensures number { result ≡ length (nodes_of table.now) }
    ensures one { OneOutcomeEach V (nodes_of table.now) }
{
    table.len()
}
