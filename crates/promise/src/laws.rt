// Functions with empty bodies whose contracts are theorems: the gate asks for their proofs by name.
ghost use Rattle.numbers.specs.Rows.{EachGiven};
ghost use Rattle.promise.specs.Promise.{Promise};
ghost use Rattle.promise.specs.Laws.{ReckoningLaws, LinesAddUp, SameAnswers, SameFacts, PartsAddUp, EveryLog, RunLaws, SameTotals, WithoutOwners, EitherWay};
ghost use Rattle.promise.specs.Figures.{FigureGiven, figures};
ghost use Rattle.promise.specs.TwoWays.{TwoWays};
ghost use Rattle.promise.specs.ReadySets.{ReadySets};
ghost use Rattle.promise.specs.MarkedDays.{MarkedDays};

// Figures a to j, and those of 02, Item 1.
pub fn figures()
    ensures { EachGiven FigureGiven figures }
{}

// Demand 3.
pub fn promised()
    ensures { Promise }
{}

// One record, hour, string or entry more.
pub fn reckoning()
    ensures { ReckoningLaws }
{}

// What `order` of the promise speaks of occurs, with an Hour, replaced records and an early Post.
pub fn two_ways()
    ensures { TwoWays }
{}

// The marks of Days in their peak hours are SH (02, Item 3): a worked example.
pub fn marked_days()
    ensures { MarkedDays }
{}

// Sets that are kept ready lower their owner's charge (02, Item 2): a worked example.
pub fn ready_sets()
    ensures { ReadySets }
{}

// The book's answers are the reckoning's, so that figure j is the book's too.
pub fn answers()
    ensures { SameAnswers }
{}

// The lines of the reckoning's posts add up to what it calls paid.
pub fn lines()
    ensures { LinesAddUp }
{}

// After any strings the book's facts are the reckoning's.
pub fn facts()
    ensures { SameFacts }
{}

// The parties' parts of a unit's V add up to V.
pub fn parts()
    ensures { PartsAddUp }
{}

// A run begins with the answers of its first strings, so that totals are dues after each accepted Post inside a list.
pub fn runs()
    ensures { RunLaws }
{}

// `order` of the promise, where a Load of 0 W and none at all are the same.
pub fn order_by_watts()
    ensures { SameTotals }
{}

// A book without Owner records is settled as in paper 01.
pub fn without_owners()
    ensures { WithoutOwners }
{}

// Balances do not depend on which way the hours came, as Days or as Hours (02, Item 3).
pub fn either_way()
    ensures { EitherWay }
{}

// Any list of strings of bytes, as many as slices hold, can be handed to `log::run`.
pub fn logs()
    ensures { EveryLog }
{}
