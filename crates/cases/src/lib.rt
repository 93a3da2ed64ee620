// Rides worked out by hand, each proved to come out as written: one list, one proof.
#![tactic(auto)]

ghost use Rattle.std.specs.Prelude.{◌≡◌, length};
ghost use Rattle.std.specs.List.{AllByRecursion};
ghost use Rattle.cases.specs.Cases.{cases, ComesOut};

// Every case of the list comes out; answers how many there are.
pub fn cases_stand() -> usize
    ensures stand { AllByRecursion ComesOut cases }
    ensures many { result ≡ length cases }
{
    4
}
