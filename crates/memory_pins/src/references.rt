//! References that are written, and that end.

ghost use Rattle.std.specs.Prelude.{◌≡◌, None, true, false};

use global_addr::Word;
use mut_borrow::MutRef;

/// A reference through which its object was written is dirty. It refuses a write that isn't noted.
pub fn a_written_reference_is_dirty(reference: MutRef) -> bool
    requires clean { reference.dirty ≡ false }
    ensures { result ≡ true }
{
    let mut written = reference;
    written.note_write();
    written.dirty
}

/// A reference that wasn't written ends without a word for its holder. It refuses an end that always answers one.
pub fn an_unchanged_reference_ends_without_a_word(reference: MutRef) -> Option<Word>
    requires clean { reference.dirty ≡ false }
    requires same { reference.word ≡ reference.first }
    ensures { result ≡ None }
{
    reference.finish()
}
