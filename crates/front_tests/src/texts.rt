//! Sources and their canonical texts. The right sides were written by hand, from the grammar and not from the program.

ghost use Rattle.std.specs.Prelude.{◌≤◌, length};
ghost use Rattle.fr_syntax.specs.Bounds.{most_bytes};

use fr_parse::{parse, print};
use fr_syntax::tokens;
use std::alloc::Global;
use std::process::Abort;

// Each source, and behind it its canonical text.
const TEXTS: &str = "\
{}|{ }
{{}}|{ { } }
{1}|{ 1 }
{1;}|{ 1 ; ( ) }
{();}|{ ( ) ; ( ) }
{1;2;{3}}|{ 1 ; 2 ; { 3 } }
{-1}|{ - 1 }
{- 01}|{ - 1 }
{-0}|{ 0 }
{000}|{ 0 }
{9223372036854775807}|{ 9223372036854775807 }
{-9223372036854775807}|{ - 9223372036854775807 }
{x}|{ x }
{_}|{ _ }
{x1;y_2}|{ x1 ; y_2 }
{letx}|{ letx }
{**x}|{ * * x }
{********x}|{ * * * * * * * * x }
{x=1}|{ x = 1 }
{*x=y}|{ * x = y }
{x=y=z}|{ x = y = z }
{let mut x=1}|{ let mut x = 1 }
{let mut x=x=1}|{ let mut x = x = 1 }
{let mut x={let mut y=1;y}}|{ let mut x = { let mut y = 1 ; y } }
{box box 1}|{ box box 1 }
{print-1}|{ print - 1 }
{join h}|{ join h }
{mutex()}|{ mutex ( ) }
{dup*m}|{ dup * m }
{&x}|{ & x }
{&mut*x}|{ & mut * x }
{&mutx}|{ & mutx }
{(1+2)}|{ ( 1 + 2 ) }
{(1-2)}|{ ( 1 - 2 ) }
{(1*2)}|{ ( 1 * 2 ) }
{(1--2)}|{ ( 1 - - 2 ) }
{(x**y)}|{ ( x * * y ) }
{((1+2)*3)}|{ ( ( 1 + 2 ) * 3 ) }
{(x=1+2)}|{ ( x = 1 + 2 ) }
{(()+{})}|{ ( ( ) + { } ) }
{spawn(){}}|{ spawn ( ) { } }
{spawn(x,y){x}}|{ spawn ( x , y ) { x } }
{par(){}(x){}}|{ par ( ) { } ( x ) { } }
{lock m as c{c}}|{ lock m as c { c } }
{lock**m as c{}}|{ lock * * m as c { } }
{let mut h=spawn(x){*x=6;x};let mut y=join h;print*y}|{ let mut h = spawn ( x ) { * x = 6 ; x } ; let mut y = join h ; print * y }
{ let mut x = box 2 ; { let mut r = & * x ; par ( r ) { print * r } ( r ) { print * r } } ; * x = ( * x + 2 ) ; print * x }|{ let mut x = box 2 ; { let mut r = & * x ; par ( r ) { print * r } ( r ) { print * r } } ; * x = ( * x + 2 ) ; print * x }
{ let mut x = 1; let mut r = &x; { let mut y = 2; r = &y } }|{ let mut x = 1 ; let mut r = & x ; { let mut y = 2 ; r = & y } }
{ let mut x = box 1; let mut r = &x; let mut y = *r }|{ let mut x = box 1 ; let mut r = & x ; let mut y = * r }
{0;007;9223372036854775807}|{ 0 ; 7 ; 9223372036854775807 }
{-0;-1;- 9223372036854775807}|{ 0 ; - 1 ; - 9223372036854775807 }
{let mut x=box 2;**x=x}|{ let mut x = box 2 ; * * x = x }
{&x;&mut*x;&**x}|{ & x ; & mut * x ; & * * x }
{((1+2)*(3--4))}|{ ( ( 1 + 2 ) * ( 3 - - 4 ) ) }
{let mut _A9=mutex dup m;print _A9}|{ let mut _A9 = mutex dup m ; print _A9 }
{lock*m as c{*c=1}}|{ lock * m as c { * c = 1 } }
{let mut t=spawn(x,y,z){x};join t}|{ let mut t = spawn ( x , y , z ) { x } ; join t }
{spawn(){};}|{ spawn ( ) { } ; ( ) }
{par(r){print*r}(r,s){print*r}}|{ par ( r ) { print * r } ( r , s ) { print * r } }
{ ********x }|{ * * * * * * * * x }
";

// Sources in several lines.
const LINES: [(&str, &str); 2] = [
    ("{\tprint\r\n1\n}", "{ print 1 }"),
    (
        "{\n\tlet mut x = box 2;\n\t{ let mut r = &*x; par(r){print *r}(r){print *r} };\n\t*x = (*x + 2);\n\tprint *x\n}\n",
        "{ let mut x = box 2 ; { let mut r = & * x ; par ( r ) { print * r } ( r ) { print * r } } ; * x = ( * x + 2 ) ; print * x }",
    ),
];

// The canonical text of a source.
fn printed(rt: &impl Abort, alloc: Global, source: &[u8]) -> String
    requires { length source.now ≤ most_bytes }
{
    let list = tokens(alloc, source).expect(rt, "no tokens");
    let tree = parse(alloc, &list).expect(rt, "no program");
    print(alloc, &tree).expect(rt, "no memory")
}

// The source, or the text that was printed, has this canonical text, and a newline.
fn prints(rt: &impl Abort, alloc: Global, source: &str, want: &str) {
    assert!(rt; source.len() < 400);
    let text = printed(rt, alloc, source.as_bytes());
    assert_eq!(rt; text.strip_suffix("\n"), Some(want), "{source}");
}

#[test]
fn texts(rt: HostRuntime) {
    for row in TEXTS.lines() {
        let (source, want) = row.split_once('|').expect(&rt, "a text");
        prints(&rt, rt.alloc(), source, want);
        prints(&rt, rt.alloc(), want, want);
    }
    for (source, want) in LINES {
        prints(&rt, rt.alloc(), source, want);
    }
}
