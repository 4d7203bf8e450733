//! Small programs that start and join threads, by the rows of the typing table: those that have a type, and the first fault of the
//! others. Places and reasons were worked out by hand.

/// Programs that have a type.
pub const TYPED: &str = "\
# a thread is started and joined
{ let mut h = spawn () { 1 }; let mut n = join h; print n }
{ let mut h = spawn () { }; join h }
{ let mut h = spawn () { 1 }; let mut g = h; print join g }
{ let mut h = spawn () { box 1 }; let mut b = box h; let mut x = join *b; print *x }
{ let mut h = spawn () { spawn () { 1 } }; let mut g = join h; print join g }
{ let mut h = spawn () { 1 }; h = spawn () { 2 }; print join h }
{ let mut h = spawn () { 1 }; print (join h + join spawn () { 2 }) }
{ let mut h = spawn () { let mut h = 1; h }; print join h }
# a name is captured
{ let mut x = 1; let mut h = spawn (x) { x = 2 }; print x }
{ let mut x = box 1; let mut h = spawn (x) { *x = 2; x }; x = join h; print *x }
{ let mut x = 1; let mut y = box 2; let mut h = spawn (x, y) { let mut z = box x; y = z; y }; join h; print x }
{ let mut x = box 1; let mut h = spawn (x) { () }; x = box 2; print *x }
{ let mut h = spawn () { 1 }; let mut g = spawn (h) { join h }; print join g }
{ let mut x = 1; let mut h = spawn () { let mut x = 2; x }; print join h }
{ let mut x = 1; let mut r = &x; let mut h = spawn (x) { x }; print *r }
{ let mut x = box 1; { let mut r = &x }; let mut h = spawn (x) { x }; join h }
{ let mut x = 1; let mut h = spawn (x) { x }; let mut g = spawn (x) { x }; print (join h + join g) }
{ let mut x = box 1; let mut h = spawn (x) { let mut g = spawn (x) { x }; join g }; let mut y = join h; print *y }
{ let mut x = box box 1; let mut y = *x; *x = y; let mut h = spawn (x) { x }; join h }
{ let mut x = 1; let mut h = spawn (x) { let mut r = &mut x; *r = 2; *r }; print x }
{ let mut x = (); let mut h = spawn (x) { x }; x }
{ let mut a = box box box box box box box box box box box box box box box box box box box box box box box box box box box box box box box box box box box box box box box box 1; let mut h = spawn (a) { box box box box box box box box box box box box box box box box box box box box box box a }; () }
";

/// Programs with the place and the reason of their first fault.
pub const FAULTS: &str = "\
# a captured name is there
{ let mut h = spawn (q) { 1 } }|byte 21: UnknownName
{ let mut h = spawn (q, r) { 1 } }|byte 21: UnknownName
{ let mut x = 1; let mut h = spawn (x, q) { x } }|byte 39: UnknownName
{ { let mut x = 1 }; let mut h = spawn (x) { x } }|byte 40: UnknownName
{ let mut x = 1; let mut h = spawn () { spawn (x) { x } } }|byte 47: UnknownName
# a captured variable is whole
{ let mut x = box 1; let mut y = x; let mut h = spawn (x) { 1 } }|byte 55: NotDefined
{ let mut x = box 1; let mut h = spawn (x) { 1 }; let mut g = spawn (x) { 1 } }|byte 69: NotDefined
{ let mut x = box 1; let mut h = spawn (x, x) { x } }|byte 43: NotDefined
{ let mut x = box box 1; let mut y = *x; let mut h = spawn (x) { 1 } }|byte 60: NotFull
{ let mut x = 1; let mut r = &mut x; let mut s = r; let mut h = spawn (r) { 1 } }|byte 71: NotDefined
# a captured variable is owned
{ let mut x = 1; let mut r = &x; let mut h = spawn (r) { *r } }|byte 52: NotOwned
{ let mut x = 1; let mut r = &mut x; let mut h = spawn (r) { 1 } }|byte 56: NotOwned
{ let mut x = box 1; let mut r = &*x; let mut h = spawn (r) { *r } }|byte 57: NotOwned
{ let mut x = 1; let mut r = &mut x; let mut s = &mut r; let mut h = spawn (r) { 1 } }|byte 76: NotOwned
# a captured variable may be lent
{ let mut x = 1; let mut r = &mut x; let mut h = spawn (x) { x } }|byte 56: ReadBlocked
{ let mut x = box 1; let mut r = &x; let mut h = spawn (x) { x } }|byte 56: WriteBlocked
{ let mut x = box 1; let mut r = &mut *x; let mut h = spawn (x) { x } }|byte 61: WriteBlocked
{ let mut h = spawn () { 1 }; let mut r = &h; let mut g = spawn (h) { join h } }|byte 65: WriteBlocked
# a name is captured once
{ let mut x = 1; let mut h = spawn (x, x) { x } }|byte 39: NameInScope
{ let mut x = 1; let mut y = box 2; let mut h = spawn (x, y, x) { x } }|byte 61: NameInScope
{ let mut x = 1; let mut h = spawn (x) { let mut x = 2 } }|byte 41: NameInScope
# what a thread took is gone
{ let mut x = box 1; let mut h = spawn (x) { x }; print *x }|byte 56: NotDefined
{ let mut x = box 1; let mut h = spawn (x) { x }; let mut r = &x }|byte 63: NotDefined
{ let mut x = box 1; let mut h = spawn (x) { let mut y = x; x } }|byte 60: NotDefined
# a body sees its captures alone
{ let mut x = 1; let mut h = spawn () { x } }|byte 40: UnknownName
{ let mut x = 1; let mut y = 2; let mut h = spawn (x) { (x + y) } }|byte 61: UnknownName
{ let mut x = 1; let mut h = spawn () { x = 2 } }|byte 40: UnknownName
{ let mut h = spawn () { print () } }|byte 31: WrongType
# a body gives what is owned
{ let mut x = 1; let mut h = spawn (x) { &x } }|byte 39: NotOwned
{ let mut x = 1; let mut h = spawn (x) { &mut x } }|byte 39: NotOwned
{ let mut h = spawn () { let mut x = 1; &x } }|byte 40: Outlives
{ let mut a = box box box box box box box box box box box box box box box box box box box box box box box box box box box box box box box box box box box box box box box box 1; let mut h = spawn (a) { box box box box box box box box box box box box box box box box box box box box box box box a }; () }|byte 199: NotOwned
# a join is of a thread
{ let mut x = 1; join x }|byte 22: WrongType
{ join () }|byte 7: WrongType
{ join box 1 }|byte 7: WrongType
{ join q }|byte 7: UnknownName
{ let mut h = spawn () { 1 }; join h; join h }|byte 43: NotDefined
{ let mut h = spawn () { 1 }; let mut r = &h; join r }|byte 51: WrongType
{ let mut h = spawn () { 1 }; let mut r = &h; join *r }|byte 51: MovedThrough
{ let mut h = spawn () { 1 }; let mut r = &h; join h }|byte 51: WriteBlocked
# a joined value has the type of the body
{ let mut h = spawn () { box 1 }; print join h }|byte 40: WrongType
{ let mut h = spawn () { 1 }; print h }|byte 36: WrongType
{ let mut h = spawn () { 1 }; h = 2 }|byte 34: WrongType
{ let mut h = spawn () { 1 }; h = spawn () { () } }|byte 34: WrongType
{ let mut x = box 1; let mut h = spawn (x) { x }; x = h }|byte 54: WrongType
";
