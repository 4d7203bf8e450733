//! Names, words and values as a trace writes them.

ghost use Rattle.std.specs.Prelude.{◌≡◌, ◌<◌, ◌++◌, ◌∷◌, [], OnOk, codes, string_bytes};
ghost use Rattle.std.specs.Fmt.{decimal, signed_decimal};
ghost use Rattle.tracer.specs.TraceText.{hex_digit, hex_digits, object_text, plain_text, released_text, word_text};

use fr_base::{NoMemory, ObjNo, Plain, Released};
use global_addr::Word;
use itoa::Buffer;
use journal::{add_mutex, add_number, add_thread};

// A hexadecimal digit, in lower case.
fn hex_digit(digit: u8) -> u8
    requires { digit < 16 }
    ensures digit { result ≡ hex_digit digit }
    ensures ascii { result < 128 }
{
    if digit < 10 {
        b'0' + digit
    } else {
        b'a' + (digit - 10)
    }
}

// Adds the last `places` hexadecimal digits.
#[tactic(auto, unfolding(crate::specs::TraceText::hex_digits))]
fn add_digits(text: &mut String, number: u64, places: u8) -> Result<(), NoMemory>
    ensures { OnOk result (string_bytes text.new ≡ string_bytes text.old ++ hex_digits places number) }
{
    if places == 0 {
        return Ok(());
    }
    add_digits(text, number / 16, places - 1)?;
    text.push(char::from(hex_digit((number % 16) as u8)))?;
    Ok(())
}

/// Adds a word, 16 digits.
pub(crate) fn add_word(text: &mut String, word: Word) -> Result<(), NoMemory>
    ensures { OnOk result (string_bytes text.new ≡ string_bytes text.old ++ word_text word) }
{
    add_digits(text, word.number(), 16)
}

/// Adds a printed number.
pub(crate) fn add_signed(text: &mut String, number: i64) -> Result<(), NoMemory>
    ensures { OnOk result (string_bytes text.new ≡ string_bytes text.old ++ signed_decimal number) }
{
    let mut buffer = Buffer::new();
    text.push_str(buffer.format(number))?;
    Ok(())
}

/// Adds an object: the thread that made it, and its count there.
pub(crate) fn add_object(text: &mut String, object: ObjNo) -> Result<(), NoMemory>
    ensures { OnOk result (string_bytes text.new ≡ string_bytes text.old ++ object_text object) }
{
    add_thread(text, object.thread)?;
    text.push_str("#")?;
    add_number(text, object.count)
}

/// Adds a value.
pub(crate) fn add_plain(text: &mut String, value: Plain) -> Result<(), NoMemory>
    ensures { OnOk result (string_bytes text.new ≡ string_bytes text.old ++ plain_text value) }
{
    match value {
        Plain::Nothing => text.push_str("nothing")?,
        Plain::Unit => text.push_str("unit")?,
        Plain::Int(number) => add_signed(text, number)?,
        Plain::Box(object) => {
            text.push_str("box=")?;
            add_object(text, object)?;
        }
        Plain::Mutex(mutex) => {
            text.push_str("mutex=")?;
            add_mutex(text, mutex)?;
        }
        Plain::Task(thread) => {
            text.push_str("task=")?;
            add_thread(text, thread)?;
        }
    }
    Ok(())
}

/// Adds what is let go.
pub(crate) fn add_released(text: &mut String, released: Released) -> Result<(), NoMemory>
    ensures { OnOk result (string_bytes text.new ≡ string_bytes text.old ++ released_text released) }
{
    match released {
        Released::Mutex(mutex) => {
            text.push_str("mutex=")?;
            add_mutex(text, mutex)
        }
        Released::Task(thread) => {
            text.push_str("task=")?;
            add_thread(text, thread)
        }
    }
}
