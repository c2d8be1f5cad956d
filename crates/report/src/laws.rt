// A function with an empty body whose contract is a theorem: the gate asks for its proof by name.
ghost use Rattle.report.specs.Laws.{JoinedPieces};

// Of an input that is read in pieces.
pub fn pieces()
    ensures { JoinedPieces }
{}
