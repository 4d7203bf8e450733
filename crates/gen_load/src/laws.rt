//! Laws of generated programs.

ghost use Rattle.gen_load.specs.Laws.{ProgramsAreTyped};

/// Each generated program has a type, whatever its number and size: the typing of programs gives it, from no variable at all.
pub fn programs_are_typed()
    ensures { ProgramsAreTyped }
{}
