//! Laws of the canonical text.

ghost use Rattle.std.specs.Prelude.{◌≡◌, ℕ, List};
ghost use Rattle.fr_terms.specs.Terms.{Term};
ghost use Rattle.fr_parse.specs.Canonical.{canonical, IsPrintable, IsSame};
ghost use Rattle.fr_grammar.specs.Source.{IsSource};

/// Printing and parsing gives the same term: the canonical text of a program is a source of one that is the same but for where
/// its parts stand, and no other term is read from that text; so two terms with one text are the same. The term of each source
/// can be printed, and the same term has the same text, so that printing what was printed changes nothing.
pub fn prints_itself()
    ensures source { (t : Term) → IsPrintable t → (u : Term) × IsSource (canonical t) u × IsSame t u }
    ensures only { (t u : Term) → IsPrintable t → IsSource (canonical t) u → IsSame t u }
    ensures tells { (t u : Term) → IsPrintable t → IsPrintable u → canonical t ≡ canonical u → IsSame t u }
    ensures printable { (bytes : List ℕ) (t : Term) → IsSource bytes t → IsPrintable t }
    ensures same { (t u : Term) → IsSame t u → canonical t ≡ canonical u }
{}
