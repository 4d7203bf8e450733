//! Laws of generated programs as sources.

ghost use Rattle.law_plain_generated.specs.Laws.{ProgramsAreSources, TypingIgnoresPlaces};

use gen_load::programs_are_typed;

/// The text of each generated program, of a size up to 4,000, is the source of a typed program, and of no more than 1,048,576 bytes (`sources`). For typing it makes no
/// difference where the parts of a term stand (`places`).
pub fn programs_are_sources()
    ensures sources { ProgramsAreSources }
    ensures places { TypingIgnoresPlaces }
{
    programs_are_typed();
}
