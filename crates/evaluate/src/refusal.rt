// Why a table is not evaluated.
ghost use Rattle.std.specs.Prelude.{◌≡◌};
ghost use Rattle.evaluate.specs.Refusals.{number};

#[derive(Clone, Copy, PartialEq, Eq, Debug)]
pub enum EvaluateRefusal {
    // The table has no nodes.
    EmptyTable = 7,
    // There are fewer cells than nodes.
    FewCells = 9,
}

impl EvaluateRefusal {
    pub fn number(self) -> u8
        ensures { result ≡ number self }
    {
        self as u8
    }
}
