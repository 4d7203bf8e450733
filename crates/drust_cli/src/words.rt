//! Words and numbers.

ghost use Rattle.std.specs.Prelude.{◌≡◌, string_bytes};
ghost use Rattle.std.specs.List.{list_all};
ghost use Rattle.drust_cli.specs.Numbers.{is_digit, is_number, in_range, number_of};
ghost use Rattle.drust_cli.specs.Words.{is_clean};

// Whether the word begins with no hyphen, or with two and something behind them.
fn is_clean(word: &str) -> bool
    ensures { result ≡ is_clean word.now }
{
    match word.as_bytes() {
        [b'-', b'-', _, ..] => true,
        [b'-', ..] => false,
        _ => true,
    }
}

/// Whether each word is clean.
pub(crate) fn all_clean(words: &[String]) -> bool
    ensures { result ≡ list_all (λ w. is_clean (string_bytes w)) words.now }
{
    words.iter().all(|word| is_clean(word.as_str()))
}

fn is_digit(c: u8) -> bool
    ensures { result ≡ is_digit c }
{
    b'0' <= c && c <= b'9'
}

fn all_digits(text: &str) -> bool
    ensures { result ≡ list_all is_digit text.now }
{
    text.as_bytes().iter().all(|c| is_digit(*c))
}

// Whether the text is 1 to 20 decimal digits.
fn is_number(text: &str) -> bool
    ensures { result ≡ is_number text.now }
{
    if !all_digits(text) {
        return false;
    }
    let count = text.len();
    1 <= count && count <= 20
}

fn within(value: u64, low: u64, high: u64) -> Option<u64>
    ensures { result ≡ in_range low high value }
{
    if low <= value && value <= high {
        Some(value)
    } else {
        None
    }
}

/// A number of 1 to 20 decimal digits, from `low` to `high`.
pub(crate) fn number(text: &str, low: u64, high: u64) -> Option<u64>
    ensures { result ≡ number_of text.now low high }
{
    if !is_number(text) {
        return None;
    }
    match text.parse::<u64>() {
        Ok(value) => within(value, low, high),
        Err(_) => None,
    }
}
