// Functions with empty bodies whose contracts are theorems: the gate asks for their proofs by name.
ghost use Rattle.numbers.specs.Rows.{EachGiven};
ghost use Rattle.money.specs.Laws.{MoneyLaws, LoweredLaws, MoneyBounds};
ghost use Rattle.money.specs.Figures.{CreditGiven, credit_rows};

// Credits, load shares and dues.
pub fn money()
    ensures { MoneyLaws }
{}

// Nets lowered by ready excesses (02, Item 2).
pub fn lowered()
    ensures { LoweredLaws }
{}

// Why 64 bits are enough.
pub fn bounds()
    ensures { MoneyBounds }
{}

// Figure i.
pub fn credit_figures()
    ensures { EachGiven CreditGiven credit_rows }
{}
