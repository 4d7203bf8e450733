//! A source, from its bytes to its program, checked.

ghost use Rattle.std.specs.Prelude.{◌≡◌, ◌≢◌, ◌≤◌, ℕ, List, Some, IfOk, IfErr, length};
ghost use Rattle.fr_terms.specs.Terms.{Text, Term as SourceTerm};
ghost use Rattle.fr_syntax.specs.declared.token.Token.{Token};
ghost use Rattle.fr_syntax.specs.Tokens.{AreTokens, IsRefusedOrNoMemory};
ghost use Rattle.fr_grammar.specs.Source.{IsSource};
ghost use Rattle.fr_grammar.specs.Table.{refusal};
ghost use Rattle.fr_syntax.specs.Meanings.{term_of};
ghost use Rattle.borrow_check.specs.Programs.{IsFault};
ghost use Rattle.source_front.specs.Typed.{IsTyped, limit};
ghost use Rattle.source_front.specs.Refusals.{IsRefusedBy};

use crate::refused::Refused;
use borrow_check::{CheckError, Checked, check};
use fr_grammar::{ParseError, parse};
use fr_syntax::{TokenError, tokens};
use std::alloc::Global;

// What a refusal of the tokens says of the source.
fn refused_tokens(error: TokenError) -> Refused
    ensures { (bytes : List ℕ) → IsRefusedOrNoMemory bytes error → IsRefusedBy bytes result }
{
    match error {
        TokenError::NoMemory => Refused::NoMemory,
        _ => Refused::Tokens(error),
    }
}

// What a refusal of the parser says of the source.
fn refused_term(error: ParseError) -> Refused
    ensures { (bytes : List ℕ) (ts : List Token) (names : List Text) → AreTokens bytes ts names → (error ≢ ParseError.NoMemory → refusal ts ≡ Some error) → IsRefusedBy bytes result }
{
    match error {
        ParseError::NoMemory => Refused::NoMemory,
        _ => Refused::Grammar(error),
    }
}

// What a refusal of the checker says of the source.
#[tactic(auto, using(crate::proofs::Refusals::faulty))]
fn refused_types(error: CheckError) -> Refused
    ensures { (bytes : List ℕ) (t : SourceTerm) → IsSource bytes t → IsFault error t → IsRefusedBy bytes result }
{
    match error {
        CheckError::Fault { place, reason } => Refused::Fault { place, reason },
        CheckError::NoMemory => Refused::NoMemory,
    }
}

/// The program of a source, checked. Each refusal exactly by what the bytes are; want of memory at any time. It takes time in the
/// length of the source.
pub fn checked_source(alloc: Global, bytes: &[u8]) -> Result<Checked, Refused>
    requires { length bytes.now ≤ limit }
    ensures typed { IfOk result (λ c. IsTyped bytes.now (term_of c.arena)) }
    ensures refused { IfErr result (IsRefusedBy bytes.now) }
{
    let tokens = match tokens(alloc, bytes) {
        Ok(tokens) => tokens,
        Err(error) => return Err(refused_tokens(error)),
    };
    let tree = match parse(alloc, &tokens) {
        Ok(tree) => tree,
        Err(error) => return Err(refused_term(error)),
    };
    match check(alloc, tree) {
        Ok(checked) => Ok(checked),
        Err(error) => Err(refused_types(error)),
    }
}
