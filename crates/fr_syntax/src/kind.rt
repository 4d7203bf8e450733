//! What a token is, and which texts are words and marks.

ghost use Rattle.std.specs.Prelude.{◌≡◌, IfSome};
ghost use Rattle.fr_syntax.specs.Words.{fixed_of, word_of, mark_of, is_letter, is_digit, is_word_byte, is_blank};
ghost use Rattle.fr_syntax.specs.TokenList.{IsInner};

/// What a token is: a name, a number, the end of the source, one of the fifteen words, or one of the eleven marks.
#[derive(Clone, Copy, Debug, PartialEq, Eq)]
pub enum TokenKind {
    /// The number of a name: names are numbered from 0.
    Name(u32),
    /// From 0 to 9223372036854775807.
    Number(i64),
    End,
    LetWord,
    MutWord,
    BoxWord,
    PrintWord,
    SpawnWord,
    JoinWord,
    ParWord,
    MutexWord,
    LockWord,
    AsWord,
    DupWord,
    IfWord,
    ElseWord,
    WhileWord,
    FnWord,
    OpenBrace,
    CloseBrace,
    OpenParen,
    CloseParen,
    Semicolon,
    Comma,
    Equals,
    Amp,
    Star,
    Plus,
    Minus,
}

fn word_of(text: &[u8]) -> Option<TokenKind>
    ensures kind { result ≡ word_of text.now }
    ensures inner { IfSome result (IsInner 0) }
{
    match text {
        b"let" => Some(TokenKind::LetWord),
        b"mut" => Some(TokenKind::MutWord),
        b"box" => Some(TokenKind::BoxWord),
        b"print" => Some(TokenKind::PrintWord),
        b"spawn" => Some(TokenKind::SpawnWord),
        b"join" => Some(TokenKind::JoinWord),
        b"par" => Some(TokenKind::ParWord),
        b"mutex" => Some(TokenKind::MutexWord),
        b"lock" => Some(TokenKind::LockWord),
        b"as" => Some(TokenKind::AsWord),
        b"dup" => Some(TokenKind::DupWord),
        b"if" => Some(TokenKind::IfWord),
        b"else" => Some(TokenKind::ElseWord),
        b"while" => Some(TokenKind::WhileWord),
        b"fn" => Some(TokenKind::FnWord),
        _ => None,
    }
}

fn mark_of(byte: u8) -> Option<TokenKind>
    ensures kind { result ≡ mark_of byte }
    ensures inner { IfSome result (IsInner 0) }
{
    match byte {
        b'{' => Some(TokenKind::OpenBrace),
        b'}' => Some(TokenKind::CloseBrace),
        b'(' => Some(TokenKind::OpenParen),
        b')' => Some(TokenKind::CloseParen),
        b';' => Some(TokenKind::Semicolon),
        b',' => Some(TokenKind::Comma),
        b'=' => Some(TokenKind::Equals),
        b'&' => Some(TokenKind::Amp),
        b'*' => Some(TokenKind::Star),
        b'+' => Some(TokenKind::Plus),
        b'-' => Some(TokenKind::Minus),
        _ => None,
    }
}

/// The word or mark that this text is.
pub(crate) fn fixed_of(text: &[u8]) -> Option<TokenKind>
    ensures kind { result ≡ fixed_of text.now }
    ensures inner { IfSome result (IsInner 0) }
{
    match text {
        [byte] if !is_letter(*byte) => mark_of(*byte),
        _ => word_of(text),
    }
}

pub(crate) fn is_letter(byte: u8) -> bool
    ensures { result ≡ is_letter byte }
{
    byte.is_ascii_alphabetic() || byte == b'_'
}

pub(crate) fn is_digit(byte: u8) -> bool
    ensures { result ≡ is_digit byte }
{
    byte.is_ascii_digit()
}

pub(crate) fn is_word_byte(byte: u8) -> bool
    ensures { result ≡ is_word_byte byte }
{
    is_letter(byte) || is_digit(byte)
}

pub(crate) fn is_blank(byte: u8) -> bool
    ensures { result ≡ is_blank byte }
{
    matches!(byte, b' ' | b'\t' | b'\r' | b'\n')
}
