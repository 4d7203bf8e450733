//! Small programs with mutexes, locks and blocks beside each other, by the rows of the typing table: those that have a type, and the
//! first fault of the others. Places and reasons were worked out by hand.

/// Programs with mutexes that have a type.
pub const LOCKED: &str = "\
# a mutex is made
{ let mut m = mutex 1; () }
{ let mut m = mutex box mutex 1 }
{ let mut m = mutex (); let mut n = m }
{ let mut h = spawn () { mutex 1 }; let mut m = join h; lock m as c { print c } }
# and shared
{ let mut m = mutex 1; let mut n = dup m }
{ let mut b = box mutex 1; let mut n = dup *b }
{ let mut m = mutex 1; let mut r = &m; let mut n = dup *r }
{ let mut m = mutex 1; let mut r = &m; let mut n = dup m; print lock *r as c { c } }
{ let mut m = mutex 1; m = dup m }
{ let mut m = mutex 1; let mut n = dup m; let mut h = spawn (n) { lock n as c { c = (c + 1) } }; join h; lock m as c { print c } }
# its content is used
{ let mut m = mutex 1; lock m as c { print c } }
{ let mut m = mutex 1; print lock m as c { c } }
{ let mut m = mutex 1; lock m as c { c = 2 } }
{ let mut m = mutex box 1; lock m as c { *c = 2; print *c } }
{ let mut m = mutex box 1; let mut x = lock m as c { box *c }; print *x }
{ let mut m = mutex 1; lock m as c { let mut r = &mut c; *r = 2 } }
{ let mut m = mutex 1; lock m as c { } }
{ let mut b = box mutex 1; lock *b as c { print c } }
{ let mut m = mutex 1; lock m as c { c }; let mut c = 2; print c }
{ let mut m = mutex 1; let mut x = 2; lock m as c { let mut y = x; c = y }; let mut y = 3 }
# or taken, and another value is put back
{ let mut m = mutex box 1; lock m as c { let mut x = c; c = x } }
{ let mut m = mutex box 1; let mut x = lock m as c { let mut y = c; c = box 2; y }; print *x }
{ let mut m = mutex box box 1; lock m as c { let mut x = *c; *c = x } }
{ let mut m = mutex box box 1; lock m as c { let mut x = *c; c = box x } }
# while it is locked the mutex may be read
{ let mut m = mutex 1; lock m as c { let mut n = dup m } }
{ let mut m = mutex 1; lock m as c { lock m as d { print d } } }
{ let mut m = mutex mutex 1; lock m as c { lock c as d { d = 2 } } }
{ let mut m = mutex 1; let mut n = mutex 2; lock m as c { lock n as d { c = d } } }
";

/// Programs with mutexes, with the place and the reason of their first fault.
pub const LOCK_FAULTS: &str = "\
# what a mutex holds is owned
{ let mut x = 1; let mut m = mutex &x }|byte 35: NotOwned
{ let mut x = 1; let mut m = mutex &mut x }|byte 35: NotOwned
{ let mut m = mutex q }|byte 20: UnknownName
{ let mut a = box box box box box box box box box box box box box box box box box box box box box box box box box box box box box box box box box box box box box box box box 1; let mut m = mutex box box box box box box box box box box box box box box box box box box box box box box box a }|byte 195: NotOwned
# what is shared is a mutex that is whole and may be read
{ dup q }|byte 6: UnknownName
{ let mut x = 1; dup x }|byte 21: WrongType
{ let mut b = box mutex 1; dup b }|byte 31: WrongType
{ let mut m = mutex 1; let mut r = &m; dup r }|byte 43: WrongType
{ let mut m = mutex 1; dup *m }|byte 27: NoTarget
{ let mut m = mutex 1; let mut n = m; dup m }|byte 42: NotDefined
{ let mut b = box mutex 1; let mut n = *b; dup *b }|byte 47: NotDefined
{ let mut b = box mutex 1; let mut n = b; dup *b }|byte 46: NotDefined
{ let mut m = mutex 1; let mut r = &mut m; dup m }|byte 47: ReadBlocked
{ let mut x = 1; let mut r = &mut x; dup x }|byte 41: ReadBlocked
# and so is what is locked
{ lock q as c { c } }|byte 7: UnknownName
{ let mut x = 1; lock x as c { c } }|byte 22: WrongType
{ let mut m = mutex 1; let mut n = m; lock m as c { c } }|byte 43: NotDefined
{ let mut m = mutex 1; let mut r = &mut m; lock m as c { c } }|byte 48: ReadBlocked
{ let mut m = mutex 1; lock *m as c { c } }|byte 28: NoTarget
# the content's name is new
{ let mut m = mutex 1; lock m as m { 1 } }|byte 23: NameInScope
{ let mut m = mutex 1; let mut c = 2; lock m as c { c } }|byte 38: NameInScope
{ let mut x = 1; lock x as x { 1 } }|byte 22: WrongType
{ let mut m = mutex 1; lock m as c { let mut c = 2 } }|byte 37: NameInScope
{ let mut m = mutex 1; lock m as c { c }; print c }|byte 48: UnknownName
# the block's value is owned
{ let mut m = mutex 1; let mut x = 1; lock m as c { &x } }|byte 50: NotOwned
{ let mut m = mutex 1; lock m as c { &c } }|byte 35: NotOwned
{ let mut m = mutex 1; lock m as c { &mut c } }|byte 35: NotOwned
{ let mut m = mutex 1; lock m as c { let mut y = 1; &y } }|byte 52: Outlives
{ let mut m = mutex 1; let mut x = 1; let mut r = &x; lock m as c { r = &c } }|byte 72: Outlives
{ let mut m = mutex box 1; let mut x = 1; lock m as c { let mut y = c; &x } }|byte 54: NotOwned
# the content is whole in the end
{ let mut m = mutex box 1; lock m as c { let mut x = c } }|byte 27: NotFull
{ let mut m = mutex box 1; lock m as c { c } }|byte 27: NotFull
{ let mut m = mutex box box 1; lock m as c { let mut x = *c } }|byte 31: NotFull
{ let mut m = mutex mutex 1; lock m as c { let mut h = spawn (c) { 1 } } }|byte 29: NotFull
{ let mut m = mutex box 1; lock m as c { let mut x = c; print *c } }|byte 62: NotDefined
{ let mut m = mutex 1; lock m as c { c = box 1 } }|byte 41: WrongType
# while it is locked the mutex stays
{ let mut m = mutex 1; lock m as c { let mut n = m } }|byte 49: WriteBlocked
{ let mut m = mutex 1; lock m as c { m = mutex 2 } }|byte 37: WriteBlocked
{ let mut m = mutex 1; lock m as c { let mut r = &mut m } }|byte 54: WriteBlocked
{ let mut m = mutex 1; lock m as c { spawn (m) { 1 } } }|byte 44: WriteBlocked
{ let mut b = box mutex 1; lock *b as c { b = box mutex 2 } }|byte 42: WriteBlocked
{ let mut m = mutex box 1; let mut x = *m }|byte 39: NoTarget
";

/// Programs with blocks beside each other that have a type.
pub const BESIDE: &str = "\
# blocks beside each other
{ par () { } () { } }
{ par () { print 1 } () { let mut x = 2; print x } }
{ let mut x = 1; par (x) { print x } (x) { x = 2; print x }; print x }
{ let mut x = box 1; let mut y = box 2; par (x) { print *x } (y) { *y = 3 } }
{ let mut h = spawn () { 1 }; par (h) { print join h } () { } }
{ let mut m = mutex 1; let mut n = dup m; par (m) { lock m as c { c = 2 } } (n) { lock n as c { print c } } }
{ let mut x = 1; par (x) { par () { } (x) { print x } } () { } }
# what is lent from the heap is a view
{ let mut x = box 1; let mut r = &*x; par (r) { print *r } (r) { print *r }; print *x }
{ let mut x = box box 1; let mut r = &*x; par (r) { print **r } () { } }
{ let mut x = box 1; let mut r = &*x; let mut s = &*r; par (s) { print *s } (r) { print *r } }
{ let mut x = box 1; let mut r = &*x; let mut s = &r; let mut t = &**s; par (t) { print *t } () { } }
{ let mut x = box 1; let mut r = &mut *x; let mut s = &*r; par (s) { print *s } () { } }
{ let mut x = box mutex 1; let mut r = &*x; par (r) { lock *r as c { c = 2 } } (r) { let mut n = dup *r } }
{ let mut x = box 1; let mut y = 2; { let mut r = &*x; par (r, y) { print (*r + y) } () { } }; *x = 3 }
# views of views
{ let mut x = box 1; let mut r = &*x; par (r) { par (r) { print *r } (r) { print *r } } () { } }
{ let mut x = box box 1; let mut r = &*x; par (r) { let mut s = &*r; par (s) { print **s } () { } } () { } }
{ let mut x = box box 1; let mut r = &*x; par (r) { let mut s = &**r; par (s) { print *s } () { } } () { } }
{ let mut x = box 1; let mut r = &*x; par (r) { let mut s = r; par (s) { print *s } (r) { print *r } } () { } }
";

/// Programs with blocks beside each other, with the place and the reason of their first fault.
pub const BESIDE_FAULTS: &str = "\
# captured names are there
{ par (q) { } () { } }|byte 7: UnknownName
{ par () { } (q) { } }|byte 14: UnknownName
{ par (q) { } (z) { } }|byte 7: UnknownName
{ par () { print () } (q) { } }|byte 23: UnknownName
# and whole
{ let mut x = box 1; let mut y = x; par (x) { } () { } }|byte 41: NotDefined
{ let mut x = box box 1; let mut y = *x; par (x) { } () { } }|byte 46: NotFull
{ let mut x = box 1; par (x) { } (x) { } }|byte 34: NotDefined
{ let mut x = box 1; par (x, x) { } () { } }|byte 29: NotDefined
{ let mut x = box 1; par (x) { } () { }; print *x }|byte 47: NotDefined
# owned, or lent from the heap
{ let mut x = 1; let mut r = &x; par (r) { } () { } }|byte 38: NotOwned
{ let mut x = box 1; let mut r = &x; par () { } (r) { } }|byte 49: NotOwned
{ let mut x = box 1; let mut r = &mut *x; par (r) { } () { } }|byte 47: NotOwned
{ let mut x = box 1; let mut r = &*x; let mut s = &r; par (s) { } () { } }|byte 59: NotOwned
{ let mut x = box 1; let mut r = &*x; let mut s = &r; let mut t = &*s; par (t) { } () { } }|byte 76: NotOwned
{ let mut x = 1; let mut r = &x; let mut s = &*r; par (s) { } () { } }|byte 55: NotOwned
# free to be handed on
{ let mut x = 1; let mut r = &mut x; par (x) { } () { } }|byte 42: ReadBlocked
{ let mut x = box 1; let mut r = &*x; par (x) { } () { } }|byte 43: WriteBlocked
{ let mut x = box 1; let mut r = &*x; let mut s = &mut r; par (r) { } () { } }|byte 63: ReadBlocked
{ let mut x = box 1; let mut r = &*x; par (r) { } (x) { } }|byte 51: WriteBlocked
# once each
{ let mut x = 1; par (x, x) { } () { } }|byte 25: NameInScope
{ let mut x = 1; par () { } (x, x) { } }|byte 32: NameInScope
{ let mut x = 1; par (x) { let mut x = 2 } () { } }|byte 27: NameInScope
# both blocks have a type, and then it is unit
{ par () { 1 } () { } }|byte 9: WrongType
{ par () { } () { 2 } }|byte 16: WrongType
{ par () { 1 } () { 2 } }|byte 9: WrongType
{ par () { q } () { z } }|byte 11: UnknownName
{ par () { 1 } () { q } }|byte 20: UnknownName
{ let mut x = box 1; let mut r = &*x; par (r) { r } () { } }|byte 46: WrongType
{ let mut x = 1; par () { print x } () { } }|byte 32: UnknownName
# a view is read and no more
{ let mut x = box box 1; let mut r = &*x; par (r) { let mut y = *r } () { } }|byte 64: MovedThrough
{ let mut x = box 1; let mut r = &*x; par (r) { *r = 2 } () { } }|byte 48: NotWritable
{ let mut x = box 1; let mut r = &*x; par (r) { let mut s = &mut *r } () { } }|byte 65: NotWritable
{ let mut x = box 1; let mut r = &*x; par (r) { let mut b = box r } () { } }|byte 64: NotOwned
{ let mut x = box 1; let mut r = &*x; par (r) { let mut h = spawn (r) { 1 } } () { } }|byte 67: NotOwned
{ let mut x = box 1; let mut r = &*x; par (r) { let mut s = &r; par (s) { } () { } } () { } }|byte 69: NotOwned
{ let mut x = box 1; let mut r = &*x; par (r) { } () { }; x = box 2 }|byte 58: WriteBlocked
{ let mut x = box 1; let mut r = &*x; par (r) { } () { }; let mut y = x }|byte 70: WriteBlocked
";
