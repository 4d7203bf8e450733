//! Laws of tokens.

ghost use Rattle.std.specs.Prelude.{◌≡◌, ℕ, List};
ghost use Rattle.fr_syntax.specs.Tokens.{AreTokens, IsRefused};
ghost use Rattle.fr_syntax.specs.declared.token.Token.{Token};
ghost use Rattle.fr_syntax.specs.declared.token.TokenError.{TokenError};

/// A source has one list of tokens with one list of names, or one refusal, and never both.
pub fn one_reading()
    ensures tokens { (bytes : List ℕ) (ts us : List Token) (names others : List (List ℕ)) → AreTokens bytes ts names → AreTokens bytes us others → ts ≡ us }
    ensures names { (bytes : List ℕ) (ts us : List Token) (names others : List (List ℕ)) → AreTokens bytes ts names → AreTokens bytes us others → names ≡ others }
    ensures refusal { (bytes : List ℕ) (e f : TokenError) → IsRefused bytes e → IsRefused bytes f → e ≡ f }
    ensures never_both { (bytes : List ℕ) (ts : List Token) (names : List (List ℕ)) (e : TokenError) → AreTokens bytes ts names → IsRefused bytes e → ⊥ }
{}
