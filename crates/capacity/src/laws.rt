// Functions with empty bodies whose contracts are theorems: the gate asks for their proofs by name.
ghost use Rattle.numbers.specs.Rows.{EachGiven};
ghost use Rattle.capacity.specs.Laws.{ShortfallLaws, ReadyLaws, CapacityBounds};
ghost use Rattle.capacity.specs.Figures.{CapacityGiven, capacity_rows};

// The limit, and P at most T.
pub fn shortfalls()
    ensures { ShortfallLaws }
{}

// Sets kept ready but not committed (02, Item 2).
pub fn ready_sets()
    ensures { ReadyLaws }
{}

// Why 64 bits are enough.
pub fn bounds()
    ensures { CapacityBounds }
{}

// Figures e to g.
pub fn capacity_figures()
    ensures { EachGiven CapacityGiven capacity_rows }
{}
