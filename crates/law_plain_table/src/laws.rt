//! Laws of tables of compiled code.

ghost use Rattle.law_plain_table.specs.Examples.{ExamplesHaveTables};
ghost use Rattle.law_plain_table.specs.ProgramCodes.{CodesHaveTables, CodesOfExamples, ProgramsHaveCodes, RoomyCodesToo, TermsHaveCodes};
ghost use Rattle.law_plain_table.specs.Tables.{ProgramsHaveTables};

/// A code of a typed program, whatever its forms, in which the threads' codes stand one behind another, has a table: an entry at each
/// instruction that a thread comes to, from which the typing of instructions leads to the next. Main's result has the program's type. The
/// program's places are within the limits of a source.
pub fn typed_code_has_table()
    ensures { ProgramsHaveTables }
{}

/// Codes to which the law applies, and so their tables.
pub fn examples_have_tables()
    ensures { ExamplesHaveTables }
{}

/// Each term in which no step was made has a code, of whatever forms it is (`terms`): it stands for the term, each thread's code in it begins behind the
/// end of another's, and it has an instruction for each of the term's steps, and one more. A code that differs from it only in the room of its lists does
/// so too (`roomy`). So has each program (`programs`), and where typing gives
/// the program a type and its places have at most eight stars, that code has a table (`tables`).
pub fn programs_have_codes()
    ensures terms { TermsHaveCodes }
    ensures roomy { RoomyCodesToo }
    ensures programs { ProgramsHaveCodes }
    ensures tables { CodesHaveTables }
{}

/// The codes of programs with threads, a lock and pairs of threads are those that are written by hand.
pub fn codes_of_examples()
    ensures { CodesOfExamples }
{}
