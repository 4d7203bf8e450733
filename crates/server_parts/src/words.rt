//! New words of objects: each comes with the change of the partition that issues it, and with its act.

ghost use Rattle.std.specs.Prelude.{◌≡◌, ◌+◌, ◌<◌, ◌≤◌, true, Some, IsSome};
ghost use Rattle.global_addr.specs.Words.{colour_of};
ghost use Rattle.owner_box.specs.Partition.{made, new_word};
ghost use Rattle.server_model.specs.NewWords.{can_grow, issue_tint, issue_renewal, issue_colour};
ghost use Rattle.server_model.specs.Work.{with_partition};

use crate::work::Work;
use global_addr::Word;
use heap_partition::{BoxPtr, Cell, Owned};
use journal::Act;

/// A cell lies here from now on; the act that names its word is the caller's. Another object can be made.
pub fn place(work: &mut Work, cell: Cell) -> Word
    requires grow { can_grow work.old.state.rest.partition ≡ true }
    requires room { 0 < work.old.room }
    ensures word { result ≡ new_word work.old.state.rest.partition }
    ensures state { work.new.state ≡ with_partition (made work.old.state.rest.partition cell) work.old.state }
    ensures spare { work.old.room ≤ work.new.room + 1 }
    ensures copies { work.new.copies ≡ work.old.copies }
{
    // The check asks that each type inside a value is named where a value is moved.
    let _inside: Option<Owned> = None;
    let word = work.partition.make(cell);
    work.room -= 1;
    word
}

/// The next colour at the same address, which isn't past the last one.
pub fn issue_tint(work: &mut Work, pointer: BoxPtr) -> Word
    requires colour { colour_of pointer.word + 1 < work.old.state.rest.partition.limit }
    requires room { 0 < work.old.room }
    ensures state { issue_tint pointer work.old.state ≡ record { word = result; work = work.new.state } }
    ensures spare { work.old.room ≤ work.new.room + 1 }
    ensures copies { work.new.copies ≡ work.old.copies }
{
    let limit = work.partition.limit();
    let Some(word) = pointer.word.next_colour(limit) else {
        unreachable!();
    };
    work.note(Act::Tint(pointer.object, pointer.word, word));
    word
}

/// A new address of an object that lies here, at the last colour of its word.
pub fn issue_renewal(work: &mut Work, pointer: BoxPtr) -> Word
    requires result { IsSome (issue_renewal pointer work.old.state) }
    requires room { 1 < work.old.room }
    ensures state { issue_renewal pointer work.old.state ≡ Some (record { word = result; work = work.new.state }) }
    ensures spare { work.old.room ≤ work.new.room + 2 }
    ensures copies { work.new.copies ≡ work.old.copies }
{
    let word = work.partition.renew(pointer.word);
    work.room -= 1;
    work.note(Act::Renew(pointer.object, pointer.word, word));
    word
}

/// The next colour, and at the last colour a new address.
pub fn issue_colour(work: &mut Work, pointer: BoxPtr) -> Word
    requires result { IsSome (issue_colour pointer work.old.state) }
    requires room { 1 < work.old.room }
    ensures state { issue_colour pointer work.old.state ≡ Some (record { word = result; work = work.new.state }) }
    ensures spare { work.old.room ≤ work.new.room + 2 }
    ensures copies { work.new.copies ≡ work.old.copies }
{
    if u32::from(pointer.word.colour()) + 1 < work.partition.limit() {
        issue_tint(work, pointer)
    } else {
        issue_renewal(work, pointer)
    }
}
