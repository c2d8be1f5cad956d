// A function with an empty body whose contract is a theorem: the gate asks for its proof by name.
ghost use Rattle.records.specs.Laws.{RecordLaws};

// Of the format and the records of a stream.
pub fn records()
    ensures { RecordLaws }
{}
