// Functions with empty bodies whose contracts are theorems: the gate asks for their proofs by name.
ghost use Rattle.rules.specs.Laws.{HourLaws, OwnerLaws};

// The order of hours.
pub fn hours()
    ensures { HourLaws }
{}

// What an owner does and does not change (02, Item 2).
pub fn owners()
    ensures { OwnerLaws }
{}
