//! Small programs, each with its code, which was written by hand.

/// Programs and their instructions.
#[rattlefmt::skip]
pub const ROWS: [(&str, &str); 8] = [
    // a box is written
    ("{ let mut x = box 1; *x = 2; print *x }",
        "Box(Const(1)); Let(Pop); Assign(Lval { slot: 0, depth: 1 }, Const(2)); Read(Lval { slot: 0, depth: 1 }, false); Print(Pop); DropSlot; End(Unit); "),
    // a value before a semicolon is dropped
    ("{ let mut x = 1; &mut x; print x }",
        "Let(Const(1)); BorrowMut(Lval { slot: 0, depth: 0 }); Discard; Read(Lval { slot: 0, depth: 0 }, false); Print(Pop); DropSlot; End(Unit); "),
    // captured slots are dropped behind the body
    ("{ let mut x = box 1; let mut n = 2; join spawn (x, n) { } }",
        "Box(Const(1)); Let(Pop); Let(Const(2)); Spawn(BoxedList { alloc: Global, list: Some(List { items: [(0, true), (1, false)] }) }, 8); Join(Pop); DropSlot; DropSlot; End(Pop); DropSlot; DropSlot; End(Unit); "),
    // bodies stand in the order of their starts
    ("{ spawn () { spawn () { } }; spawn () { 2 } }",
        "Spawn(BoxedList { alloc: Global, list: None }, 4); Discard; Spawn(BoxedList { alloc: Global, list: None }, 6); End(Pop); Spawn(BoxedList { alloc: Global, list: None }, 7); End(Pop); End(Const(2)); End(Unit); "),
    // a lock's body declares a variable
    ("{ let mut m = mutex box 1; let mut n = dup m; print lock n as c { let mut x = *c; c = box 2; x } }",
        "Box(Const(1)); Mutex(Pop); Let(Pop); Dup(Lval { slot: 0, depth: 0 }); Let(Pop); Lock(Lval { slot: 1, depth: 0 }); Read(Lval { slot: 3, depth: 1 }, false); Let(Pop); Box(Const(2)); Assign(Lval { slot: 3, depth: 0 }, Pop); Read(Lval { slot: 4, depth: 0 }, false); DropSlot; Unlock; Print(Pop); DropSlot; DropSlot; End(Unit); "),
    // a lock in a thread
    ("{ let mut m = mutex 0; let mut n = dup m; let mut h = spawn (n) { lock n as c { c = (c + 1) } }; join h; lock m as c { print c } }",
        "Mutex(Const(0)); Let(Pop); Dup(Lval { slot: 0, depth: 0 }); Let(Pop); Spawn(BoxedList { alloc: Global, list: Some(List { items: [(1, true)] }) }, 17); Let(Pop); Read(Lval { slot: 2, depth: 0 }, true); Join(Pop); Discard; Lock(Lval { slot: 0, depth: 0 }); Read(Lval { slot: 4, depth: 0 }, false); Print(Pop); Unlock; DropSlot; DropSlot; DropSlot; End(Unit); Lock(Lval { slot: 0, depth: 0 }); Read(Lval { slot: 2, depth: 0 }, false); Arith(Add, Pop, Const(1)); Assign(Lval { slot: 2, depth: 0 }, Pop); Unlock; DropSlot; End(Unit); "),
    // a pair of threads
    ("{ let mut x = box 1; let mut y = box 2; par (x) { print *x } (y) { *y = 3; print *y } }",
        "Box(Const(1)); Let(Pop); Box(Const(2)); Let(Pop); Par(BoxedList { alloc: Global, list: Some(List { items: [(0, true)] }) }, 9, BoxedList { alloc: Global, list: Some(List { items: [(1, true)] }) }, 13); ParEnd; DropSlot; DropSlot; End(Unit); Read(Lval { slot: 0, depth: 1 }, false); Print(Pop); DropSlot; End(Unit); Assign(Lval { slot: 0, depth: 1 }, Const(3)); Read(Lval { slot: 0, depth: 1 }, false); Print(Pop); DropSlot; End(Unit); "),
    // a pair with views in a thread, and a thread in it
    ("{ let mut x = box 1; let mut h = spawn (x) { let mut r = &*x; par (r) { print *r } (r) { let mut t = spawn () { }; join t }; 5 }; print join h }",
        "Box(Const(1)); Let(Pop); Spawn(BoxedList { alloc: Global, list: Some(List { items: [(0, true)] }) }, 10); Let(Pop); Read(Lval { slot: 1, depth: 0 }, true); Join(Pop); Print(Pop); DropSlot; DropSlot; End(Unit); Borrow(Lval { slot: 0, depth: 1 }); Let(Pop); Par(BoxedList { alloc: Global, list: Some(List { items: [(1, false)] }) }, 17, BoxedList { alloc: Global, list: Some(List { items: [(1, false)] }) }, 21); ParEnd; DropSlot; DropSlot; End(Const(5)); Read(Lval { slot: 0, depth: 1 }, false); Print(Pop); DropSlot; End(Unit); Spawn(BoxedList { alloc: Global, list: None }, 28); Let(Pop); Read(Lval { slot: 1, depth: 0 }, true); Join(Pop); DropSlot; DropSlot; End(Pop); End(Unit); "),
];
