//! Texts by hand.

use super::*;
use std::test::Fail;

#[test]
fn the_text_of_each_kind(rt: HostRuntime) -> Result<(), Fail> {
    for (number, size, want) in [
        (
            0,
            1,
            "{ let mut m = mutex 0 ; let mut a = dup m ; let mut b = dup m ; let mut h = spawn ( a ) { lock a as c { c = ( c + 1 ) } } ; let mut g = spawn ( b ) { lock b as c { c = ( c + 1 ) } } ; join h ; join g ; lock m as c { print c } }\n",
        ),
        (
            288,
            2,
            "{ let mut m = mutex 0 ; let mut a = dup m ; let mut b = dup m ; let mut h = spawn ( a ) { lock a as c { c = ( c + 97 ) } ; lock a as c { c = ( c + 97 ) } } ; let mut g = spawn ( b ) { lock b as c { c = ( c + 97 ) } ; lock b as c { c = ( c + 97 ) } } ; join h ; join g ; lock m as c { print c } }\n",
        ),
        (
            4,
            1,
            "{ let mut x = box 2 ; { let mut r = & * x ; par ( r ) { print * r } ( r ) { print * r } } ; * x = ( * x + 2 ) ; print * x }\n",
        ),
        (
            292,
            1,
            "{ let mut x = box 1 ; { let mut r = & * x ; par ( r ) { print * r } ( r ) { print * r } } ; * x = ( * x + 1 ) ; print * x }\n",
        ),
        (
            2,
            2,
            "{ let mut x = box box 1 ; let mut h0 = spawn ( x ) { * * x = ( * * x + 1 ) ; x } ; x = join h0 ; let mut h1 = spawn ( x ) { * * x = ( * * x + 1 ) ; x } ; x = join h1 ; print * * x }\n",
        ),
    ] {
        assert!(rt; 1 <= size && size <= 4_000);
        assert_eq!(rt; generate(rt.alloc(), number, size)?.as_str(), want);
    }
    assert_eq!(rt; generate(rt.alloc(), u64::MAX, 4_000)?.len(), 264_164);
    programs_are_typed();
    Ok(())
}
