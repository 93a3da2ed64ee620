// A pool of records with a chain for each receiver, newest first, kept in good order.
mod calls;
mod pool;
mod records;

ghost use Rattle.std.specs.Prelude.{◌≡◌, ℕ, ◌+◌, ◌≤◌, length};
ghost use Rattle.std.specs.List.{AllPass};
ghost use Rattle.mail.specs.Messages.{addressed};
ghost use Rattle.boxes.specs.Chains.{chain_of, pile_of};
ghost use Rattle.boxes.specs.Inner.{Tight};

use pool::Pool;

#[derive(Drop)]
pub struct Boxes {
    pool: Pool,
    ghost sized: { length pool.records ≡ 64 },
    ghost linked: { length pool.links ≡ 81 },
    // Each chain ends, and has only records of its receiver; chain 0 is the free one.
    ghost chained: { (q : ℕ) → q ≤ 16 → Tight pool q },
    // Each message that waits is between processors.
    ghost sent: { AllPass addressed (pile_of pool) },
    // As many messages wait as are counted, and all other records are free.
    ghost counted: { length (pile_of pool) ≡ pool.count },
    ghost spare: { length (chain_of pool 0) + pool.count ≡ 64 },
}
