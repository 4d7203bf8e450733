//! Laws of typing.

ghost use Rattle.fr_typing.specs.Laws.{ExactlyOne, OneOutcome};
ghost use Rattle.fr_typing.specs.Examples.{ExamplesCompute};
ghost use Rattle.fr_typing.specs.BorrowExamples.{BorrowsCompute};
ghost use Rattle.fr_typing.specs.ThreadExamples.{ThreadsCompute};
ghost use Rattle.fr_typing.specs.JoinExamples.{JoinsCompute};

/// The relation of typing is what the function gives.
pub fn exactly_one()
    ensures { ExactlyOne }
{}

/// A term is typed or has a fault, not both, and each in one way.
pub fn one_outcome()
    ensures { OneOutcome }
{}

/// What typing gives for some whole programs, and which references have a join.
pub fn examples_compute()
    ensures owned { ExamplesCompute }
    ensures borrows { BorrowsCompute }
    ensures threads { ThreadsCompute }
    ensures joins { JoinsCompute }
{}
