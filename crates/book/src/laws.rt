// Functions with empty bodies whose contracts are theorems: the gate asks for their proofs by name.
ghost use Rattle.book.specs.Entered.{EveryBook};
ghost use Rattle.book.specs.Days.{DayLaws};
ghost use Rattle.book.specs.Runs.{HourRunLaws};

// Every book that strings lead to from the empty one is sound.
pub fn every_book()
    ensures { EveryBook }
{}

// What `Book::hours` does is what `Book::enter` does with the strings that it took.
pub fn hour_runs()
    ensures { HourRunLaws }
{}

// What a Day does is what is done with the 24 Hours that it stands for (02, Item 3).
pub fn days()
    ensures { DayLaws }
{}
