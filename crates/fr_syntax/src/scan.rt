//! The first text of some bytes, and what it is.

ghost use Rattle.std.specs.Prelude.{◌≡◌, ◌+◌, ◌<◌, ◌≤◌, ◌^◌, true, [], length, SomeIff, pos, IfOk, OnOk};
ghost use Rattle.std.specs.List.{prefix_len};
ghost use Rattle.std.specs.Str.{IsAscii};
ghost use Rattle.fr_syntax.specs.Bounds.{most_numbered};
ghost use Rattle.fr_syntax.specs.Names.{with_text};
ghost use Rattle.fr_syntax.specs.Words.{is_letter, is_digit, is_word_byte, is_blank};
ghost use Rattle.fr_syntax.specs.Text.{blanks, text_len, head_is};
ghost use Rattle.fr_syntax.specs.TokenList.{IsInner};
ghost use Rattle.fr_base.specs.Numbers.{number_value};
ghost use Rattle.fr_syntax.specs.Tokens.{kind_at, name_at, names_after, Gives, first_text, after_text};

use crate::kind::{TokenKind, fixed_of, is_blank, is_digit, is_letter, is_word_byte};
use crate::known::Known;
use crate::list::Tokens;
use crate::token::TokenError;

fn blanks(bytes: &[u8]) -> usize
    ensures within { result ≤ length bytes.now }
    ensures value { result ≡ blanks bytes.now }
{
    bytes.iter().take_while(|b| is_blank(**b)).count()
}

fn word_bytes(bytes: &[u8]) -> usize
    ensures within { result ≤ length bytes.now }
    ensures value { result ≡ prefix_len is_word_byte bytes.now }
{
    bytes.iter().take_while(|b| is_word_byte(**b)).count()
}

fn digits(bytes: &[u8]) -> usize
    ensures within { result ≤ length bytes.now }
    ensures value { result ≡ prefix_len is_digit bytes.now }
{
    bytes.iter().take_while(|b| is_digit(**b)).count()
}

fn text_len(bytes: &[u8]) -> usize
    ensures within { result ≤ length bytes.now }
    ensures value { result ≡ text_len bytes.now }
{
    match bytes {
        [] => 0,
        [b, rest @ ..] => {
            if is_letter(*b) {
                word_bytes(rest) + 1
            } else if is_digit(*b) {
                digits(rest) + 1
            } else {
                1
            }
        }
    }
}

fn number_of(text: &[u8]) -> Option<i64>
    ensures { SomeIff result (number_value text.now < 2 ^ 63) (pos (number_value text.now)) }
{
    let mut value = 0u64;
    for d in text {
        value = value
            .saturating_mul(10)
            .saturating_add(u64::from(d.saturating_sub(b'0')));
    }
    i64::try_from(value).ok()
}

/// What this text is, where it starts at `place`. A name that is new is added to the names, and only then copied.
pub(crate) fn kind_of<'a>(
    tokens: &mut Tokens,
    known: &mut Known<'a>,
    place: u32,
    text: &'a [u8],
) -> Result<TokenKind, TokenError>
    requires some { 0 < length text.now }
    requires ascii { head_is is_letter text.now ≡ true → IsAscii text.now }
    requires same { known.old ≡ tokens.old.names }
    requires few { length tokens.old.names < most_numbered }
    ensures kind { Gives result (kind_at tokens.old.names place text.now) }
    ensures names { OnOk result (tokens.new.names ≡ names_after tokens.old.names text.now) }
    ensures items { tokens.new.items ≡ tokens.old.items }
    ensures same_kept { OnOk result (known.new ≡ tokens.new.names) }
    ensures inner { IfOk result (IsInner (length tokens.new.names)) }
{
    if let Some(kind) = fixed_of(text) {
        return Ok(kind);
    }
    let first = text[0];
    if is_letter(first) {
        return name_of(tokens, known, place, text);
    }
    if !is_digit(first) {
        return Err(TokenError::BadByte { place });
    }
    match number_of(text) {
        Some(number) => Ok(TokenKind::Number(number)),
        None => Err(TokenError::NumberTooLarge { place }),
    }
}

fn name_of<'a>(
    tokens: &mut Tokens,
    known: &mut Known<'a>,
    place: u32,
    text: &'a [u8],
) -> Result<TokenKind, TokenError>
    requires ascii { IsAscii text.now }
    requires same { known.old ≡ tokens.old.names }
    requires few { length tokens.old.names < most_numbered }
    ensures kind { Gives result (name_at tokens.old.names place text.now) }
    ensures names { OnOk result (tokens.new.names ≡ with_text tokens.old.names text.now) }
    ensures items { tokens.new.items ≡ tokens.old.items }
    ensures same_kept { OnOk result (known.new ≡ tokens.new.names) }
    ensures inner { IfOk result (IsInner (length tokens.new.names)) }
{
    if text.len() > 32 {
        return Err(TokenError::NameTooLong { place });
    }
    let Ok(name) = str::from_utf8(text) else {
        unreachable!()
    };
    let (number, is_new) = known.number(name)?;
    if is_new {
        tokens.add_name(name)?;
    }
    Ok(TokenKind::Name(number as u32))
}

/// How many blanks come first, then the longest text that can be a token, and what follows it.
pub(crate) fn first_text(bytes: &[u8]) -> (usize, &[u8], &[u8])
    ensures blanks { result.0 ≡ blanks bytes.now }
    ensures text { result.1.now ≡ first_text bytes.now }
    ensures after { result.2.now ≡ after_text bytes.now }
    ensures all { result.0 + length result.1.now + length result.2.now ≡ length bytes.now }
    ensures end { length result.1.now ≡ 0 → result.2.now ≡ [] }
    ensures ascii { head_is is_letter result.1.now ≡ true → IsAscii result.1.now }
{
    let skipped = blanks(bytes);
    let rest = &bytes[skipped..];
    let (text, after) = rest.split_at(text_len(rest));
    (skipped, text, after)
}
