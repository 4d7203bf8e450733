//! Laws of the names that a run gives, and of all runs of a program.

ghost use Rattle.law_plain_names.specs.Explored.{AllEndSo};
ghost use Rattle.law_plain_names.specs.Renamed.{NamesDontMatter};

/// **The plain machine doesn't look at names**: where threads and mutexes get other names, no two of them one, and main keeps its own, each run of a code leads to the state with those names,
/// with the same labels but for names, and that ends alike.
pub fn names_dont_matter()
    ensures { NamesDontMatter }
{}

/// **All runs of a program, by exploring those of one of its codes**: where each order of plain steps of that code, its new names numbered as they come, has so many steps and comes to that
/// end, so does each run, of whatever code of the program and with whatever names, that isn't going any more: it has so many steps, has finished or is deadlocked as the end says, printed
/// these numbers, main waits at the lock of that mutex or for nothing, and where it has finished no thread, object or mutex is left. The exploring is a computation.
pub fn all_runs_end_so()
    ensures { AllEndSo }
{}
