//! A reference written, cleaned and ended.

use crate::answers::first_wrong;
use fr_base::{Lval, ObjNo, ThreadNo};
use global_addr::Word;
use mut_borrow::{Cleaned, MutRef, changed_law};

// A reference that wasn't written through stays as it is, and ends without another word.
fn stays(r: &mut MutRef) -> bool {
    r.word.colour() == 0 && r.clean(3) == Cleaned::Same && !r.dirty && r.finish() == None
}

// One that was written through gets the next colour.
fn is_tinted(r: &mut MutRef) -> bool {
    let tinted = Word::pack(1, 1, 7);
    r.note_write();
    r.dirty
        && r.word.colour() == 0
        && r.clean(3) == Cleaned::Tinted(tinted)
        && !r.dirty
        && r.finish() == Some(tinted)
}

// Where there is none, it has to be renewed.
fn must_be_renewed(r: &mut MutRef) -> bool {
    r.note_write();
    r.word.colour() == 1 && r.clean(2) == Cleaned::MustRenew && r.dirty
}

// It gets the word of the renewed object, and ends with it.
fn is_renewed(r: &mut MutRef, first: Word) -> bool {
    let renewed = Word::pack(0, 2, 9);
    r.took(renewed);
    !r.dirty && r.finish() == Some(renewed) && r.first == first
}

#[test]
fn ends_with_its_last_word(rt: HostRuntime) {
    let object = ObjNo {
        thread: ThreadNo::new(0, 0),
        count: 0,
    };
    let first = Word::pack(0, 1, 7);
    let mut r = MutRef::new(first, object, false, Lval { slot: 2, depth: 1 });
    let right = [
        stays(&mut r),
        is_tinted(&mut r),
        must_be_renewed(&mut r),
        is_renewed(&mut r, first),
    ];
    assert_eq!(rt; first_wrong(&right), None);
    changed_law();
}
