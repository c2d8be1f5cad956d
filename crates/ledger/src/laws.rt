// A function with an empty body whose contract is a theorem: the gate asks for its proof by name.
ghost use Rattle.ledger.specs.Answers.{AnswersPrinted};

// What is printed is what the promise's run answers.
pub fn answers()
    ensures { AnswersPrinted }
{}
