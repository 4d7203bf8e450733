//! The start of a run is coherent.

ghost use Rattle.law_runs_coherent.specs.starts.Starts.{StartsAreCoherent};

use coherent_types::laws::starts_have_types;

/// The start of each code that has a table is coherent in all parts, whatever options in their ranges and on however many servers: main alone stands
/// somewhere, at its first instruction, and nothing was made yet.
pub fn starts_are_coherent()
    ensures { StartsAreCoherent }
{
    starts_have_types();
}
