//! How many steps and threads a program has, by its nodes.

ghost use Rattle.law_length_programs.specs.sizes.Size.{ProgramsDoFewSteps};

/// The steps that a program has before it at its start, those of all threads that it can start among them, and its threads, main among them, are together at most
/// twice the nodes of its tree.
pub fn programs_do_few_steps()
    ensures { ProgramsDoFewSteps }
{}
