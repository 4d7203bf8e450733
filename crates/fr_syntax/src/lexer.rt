//! The tokens of a source.

ghost use Rattle.std.specs.Prelude.{◌+◌, ◌≤◌, length, IfOk, IfErr};
ghost use Rattle.fr_syntax.specs.Bounds.{most_bytes};
ghost use Rattle.fr_syntax.specs.TokenList.{EndsOnce};
ghost use Rattle.fr_syntax.specs.Tokens.{AreTokens, IsRefusedOrNoMemory};

use crate::kind::TokenKind;
use crate::known::Known;
use crate::list::Tokens;
use crate::scan::{first_text, kind_of};
use crate::token::{Token, TokenError};
use std::alloc::Global;

/// The tokens of the bytes, of which there are at most 67,108,864. Names are numbered in the order in which they first come.
/// A refusal names the first text that spells no token; want of memory comes at any time.
pub fn tokens(alloc: Global, bytes: &[u8]) -> Result<Tokens, TokenError>
    requires { length bytes.now ≤ most_bytes }
    ensures ok { IfOk result (λ t. AreTokens bytes.now t.items t.names) }
    ensures few { IfOk result (λ t. length t.items ≤ length bytes.now + 1) }
    ensures ends { IfOk result (λ t. EndsOnce t.items) }
    ensures err { IfErr result (IsRefusedOrNoMemory bytes.now) }
{
    let mut tokens = Tokens::new(alloc);
    let mut known = Known::new(alloc);
    let mut place = 0usize;
    let mut rest = bytes;
    'each: loop {
        let (skipped, text, after) = first_text(rest);
        let start = (place + skipped) as u32;
        if text.is_empty() {
            tokens.push(Token {
                kind: TokenKind::End,
                start,
                end: start,
            })?;
            return Ok(tokens);
        }
        let kind = kind_of(&mut tokens, &mut known, start, text)?;
        place += skipped + text.len();
        tokens.push(Token {
            kind,
            start,
            end: place as u32,
        })?;
        rest = after;
    }
}
