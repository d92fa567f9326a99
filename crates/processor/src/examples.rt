ghost use Rattle.processor.specs.Examples.{BranchesGo, ConsoleAnswers, OperandsAreFound, ResultsAreRight, WordsAreDecoded};

/// The word of each instruction. This function does nothing: its contract is the examples.
pub fn words_are_decoded()
    ensures { WordsAreDecoded }
{}

/// Each instruction's result and condition codes, at the borders of a word and a byte. This function
/// does nothing: its contract is the examples.
pub fn results_are_right()
    ensures { ResultsAreRight }
{}

/// Where each branch goes. This function does nothing: its contract is the examples.
pub fn branches_go()
    ensures { BranchesGo }
{}

/// Where each addressing mode finds its operand. This function does nothing: its contract is the
/// examples.
pub fn operands_are_found()
    ensures { OperandsAreFound }
{}

/// What the console's four registers show and do. This function does nothing: its contract is the
/// examples.
pub fn console_answers()
    ensures { ConsoleAnswers }
{}
