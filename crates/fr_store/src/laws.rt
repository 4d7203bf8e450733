//! The laws.

ghost use Rattle.fr_store.specs.Changes.{MakeLaw, SetLaw, SwapLaw, UnboxLaw};
ghost use Rattle.fr_store.specs.JoinRows.{JoinRow, JoinTempRow};
ghost use Rattle.fr_store.specs.ListRows.{AlikeList, AssignList, BoxList, DropList, EndList, IntList, LetList, MoveList, NoneList, ReadIntList, ReadUnitList, StartList, UnitList};
ghost use Rattle.fr_store.specs.OtherThreads.{CaptureRow, NewThreadRow, OtherRow, SleepRow, StepRow, StepSleepRow, ViewRow, WakeRow};
ghost use Rattle.fr_store.specs.OwnedRows.{AlikeRow, AssignRow, BoxRow, DropRow, EndRow, HandRow, IntRow, LetRow, MoveRow, NextRow, RaiseRow, ReadIntRow, ReadUnitRow, RoomRow, StartRow, UnitRow, WriteRow, WriteThroughRow};
ghost use Rattle.fr_store.specs.ReferenceRows.{ClearRow, CopyRow, FillRow, ForgetRow, MoveRefRow, MutableRow, SharedRow};
ghost use Rattle.fr_store.specs.Rows.{BorrowLaw, BoxLaw, CopyLaw, DropLaw, ForgetLaw, FoundLaw, MoveRefLaw, SameLaw, SoleLaw, SwapOwnLaw, SwapThroughLaw};
ghost use Rattle.fr_store.specs.Tidy.{FreshLaw, TidyAlikeLaw, TidyDropLaw, TidyMakeLaw, TidySetLaw, TidySwapLaw, TidyUnboxLaw};

/// A store stays typed where a key that no type names gets another value that owns no object: nothing, `()`, a number, or
/// a reference to a place whose variable no type names (no mutable reference's type, where it is shared).
pub fn set_law()
    ensures typed { SetLaw }
{}

/// A store stays typed in one link of a drop: an object leaves the heap, and the key that had its box has what it held.
pub fn unbox_law()
    ensures typed { UnboxLaw }
{}

/// A store stays typed where a new object takes what a key owns, and the key has its box.
pub fn make_law()
    ensures typed { MakeLaw }
{}

/// A store stays typed where what a key owns and what stands so many boxes below another key change places, if no
/// reference leads deeper into that key's chain of boxes.
pub fn swap_law()
    ensures typed { SwapLaw }
{}

/// The operations on a typed store, each under what a program's types grant: a place of the types is found (`found`) and
/// holds a value of its type; borrows, copies and moves of references (`borrow`, `copy`, `move_ref`); moving in and out
/// of a variable's own boxes (`swap_own`) and writing through mutable references (`swap_through`); a new object
/// (`box_hand`), the end of an owned value (`drop_hand`) and of a reference (`forget`). Who writes is alone (`sole`): each
/// reference into what it writes stands on its way there. Two stores with the same values are typed alike (`same`).
pub fn rows_law()
    ensures found { FoundLaw }
    ensures borrow { BorrowLaw }
    ensures copy { CopyLaw }
    ensures move_ref { MoveRefLaw }
    ensures swap_own { SwapOwnLaw }
    ensures swap_through { SwapThroughLaw }
    ensures box_hand { BoxLaw }
    ensures drop_hand { DropLaw }
    ensures forget { ForgetLaw }
    ensures sole { SoleLaw }
    ensures same { SameLaw }
{}

/// Each step that the types of Featherweight Rust allow a thread can be done, and leaves the thread typed as they say: on
/// owned values (`start` to `end_slot`), on references (`shared` to `forget`), where branches meet (`join`, `join_temp`),
/// and beside other threads, which it leaves as they were (`new_thread` to `step_sleep`).
pub fn thread_law()
    ensures start { StartRow }
    ensures hand { HandRow }
    ensures raise { RaiseRow }
    ensures room { RoomRow }
    ensures next { NextRow }
    ensures alike { AlikeRow }
    ensures number { IntRow }
    ensures unit { UnitRow }
    ensures read_number { ReadIntRow }
    ensures read_unit { ReadUnitRow }
    ensures move_out { MoveRow }
    ensures bind { LetRow }
    ensures assign { AssignRow }
    ensures write { WriteRow }
    ensures write_through { WriteThroughRow }
    ensures drop_temp { DropRow }
    ensures boxing { BoxRow }
    ensures end_slot { EndRow }
    ensures shared { SharedRow }
    ensures mutable { MutableRow }
    ensures copied { CopyRow }
    ensures move_ref { MoveRefRow }
    ensures clear { ClearRow }
    ensures fill { FillRow }
    ensures forget { ForgetRow }
    ensures join { JoinRow }
    ensures join_temp { JoinTempRow }
    ensures new_thread { NewThreadRow }
    ensures capture { CaptureRow }
    ensures view { ViewRow }
    ensures other { OtherRow }
    ensures sleep { SleepRow }
    ensures wake { WakeRow }
    ensures step { StepRow }
    ensures step_sleep { StepSleepRow }
{}

/// A held box keeps its object and each object its owner, through each of the four changes (`set`, `swap`, `unbox`,
/// `make`) and a whole drop (`drop_value`); only values count (`alike`). So nobody holds a box of an object that isn't
/// there (`fresh`).
pub fn tidy_law()
    ensures set { TidySetLaw }
    ensures swap { TidySwapLaw }
    ensures unbox { TidyUnboxLaw }
    ensures make { TidyMakeLaw }
    ensures alike { TidyAlikeLaw }
    ensures drop_value { TidyDropLaw }
    ensures fresh { FreshLaw }
{}

/// The steps on owned values in the state of one thread that runs alone, whose slots are a list and whose objects are a
/// heap: the start (`start`), constants (`number`, `unit`) and what is read to be copied (`read_number`, `read_unit`),
/// moving out of a place (`move_out`), `let` (`bind`), assignment (`assign`), the end of a value (`drop_temp`), a new
/// object (`boxing`) and the end of the newest slot (`end_slot`). Where no value is in the term, gone stands there
/// (`none`), and only what each object holds counts (`alike`). Each can be done in a typed state, and leaves a typed state.
pub fn list_law()
    ensures start { StartList }
    ensures none { NoneList }
    ensures alike { AlikeList }
    ensures number { IntList }
    ensures unit { UnitList }
    ensures read_number { ReadIntList }
    ensures read_unit { ReadUnitList }
    ensures move_out { MoveList }
    ensures bind { LetList }
    ensures assign { AssignList }
    ensures drop_temp { DropList }
    ensures boxing { BoxList }
    ensures end_slot { EndList }
{}
