// Functions with empty bodies whose contracts are theorems: the gate asks for their proofs by name.
ghost use Rattle.numbers.specs.Rows.{EachGiven};
ghost use Rattle.numbers.specs.Laws.{SplitLaws};
ghost use Rattle.numbers.specs.Figures.{SplitGiven, split_rows};

// Shares add up, lie between 0 and the amount, and keep its sign.
pub fn splits()
    ensures { SplitLaws }
{}

// Figure h.
pub fn split_figures()
    ensures { EachGiven SplitGiven split_rows }
{}
