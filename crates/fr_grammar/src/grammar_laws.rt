//! Laws of the grammar.

ghost use Rattle.std.specs.Prelude.{◌≡◌, ◌≢◌, ◌↔◌, ℕ, List, Some, None};
ghost use Rattle.fr_terms.specs.Limits.{IsWithinLimits};
ghost use Rattle.fr_terms.specs.Terms.{Text, Term};
ghost use Rattle.fr_grammar.specs.Grammar.{IsProgram};
ghost use Rattle.fr_grammar.specs.Refusals.{first_over, IsFirstWithout, IsFirstTooDeep, IsRefusalOf};
ghost use Rattle.fr_grammar.specs.Source.{Spelled, IsSource};
ghost use Rattle.fr_grammar.specs.Table.{refusal};
ghost use Rattle.fr_grammar.specs.declared.fault.ParseError.TheVariants.{Syntax, TooDeep, NoMemory};
ghost use Rattle.fr_syntax.specs.TokenList.{EndsOnce};
ghost use Rattle.fr_syntax.specs.Tokens.{AreTokens, IsRefused};
ghost use Rattle.fr_syntax.specs.declared.token.Token.{Token};
ghost use Rattle.fr_syntax.specs.declared.token.TokenError.{TokenError};

/// Tokens spell one program at most, and bytes are the text of one program at most.
pub fn one_program()
    ensures once { (names : List Text) (ts : List Token) (t u : Term) → Spelled names ts t → Spelled names ts u → t ≡ u }
    ensures source { (bytes : List ℕ) (t u : Term) → IsSource bytes t → IsSource bytes u → t ≡ u }
{}

/// Bytes are the text of no program where some text of them is no token, or where their tokens spell none.
pub fn no_program()
    ensures tokens { (bytes : List ℕ) (e : TokenError) (t : Term) → IsRefused bytes e → ¬ (IsSource bytes t) }
    ensures grammar { (bytes : List ℕ) (ts : List Token) (names : List Text) → AreTokens bytes ts names → ((t : Term) → ¬ (Spelled names ts t)) → (t : Term) → ¬ (IsSource bytes t) }
{}

/// The first refusal of tokens is at the first for which the table of the language has no entry, or which is too deep; there is
/// none exactly where the tokens spell a program within the limits. A token is refused for its syntax where programs of the
/// grammar go on with the tokens before it, and none with it; for its depth where programs go on with it, but none within the
/// limits. A program of the grammar that breaks the limits is refused where it first does: at a term or an item of depth 65, or
/// at the ninth star of a place.
pub fn first_refusal()
    ensures none { (names : List Text) (ts : List Token) → (refusal ts ≡ None) ↔ ((t : Term) × Spelled names ts t) }
    ensures memory { (ts : List Token) → refusal ts ≢ Some NoMemory }
    ensures syntax { (names : List Text) (ts : List Token) (place : ℕ) → EndsOnce ts → refusal ts ≡ Some (Syntax place) → IsFirstWithout names ts place }
    ensures too_deep { (names : List Text) (ts : List Token) (place : ℕ) → refusal ts ≡ Some (TooDeep place) → IsFirstTooDeep names ts place }
    ensures limits { (names : List Text) (ts : List Token) (t : Term) → IsProgram names ts t → IsRefusalOf ts (first_over 64 t) (refusal ts) }
    ensures within { (t : Term) → (first_over 64 t ≡ None) ↔ IsWithinLimits t }
{}
