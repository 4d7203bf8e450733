//! Sources that are refused, and where. The places were worked out by hand, from the grammar and not from the program.

ghost use Rattle.std.specs.Prelude.{◌≤◌, length};
ghost use Rattle.fr_syntax.specs.Bounds.{most_bytes};

use fr_parse::{ParseError, parse};
use fr_syntax::tokens;
use std::alloc::Global;
use std::process::Abort;
use std::test::Fail;

// The first token for which the grammar has no entry.
const NO_ENTRY: &str = "\
{{{{{{{{{{{{{{{{{{{{{{{{{{{{{{{{{{{{{{{{{{{{{{{{{{{{{{{{{{{{{{{{;|64
|0
{|1
}|0
x|0
{1 2}|3
{;}|1
{1;;}|3
{}{}|2
{1}}|3
{,}|1
{let x=1}|5
{let mut 1=1}|9
{let mut x 1}|11
{let mut x=let mut y=1}|11
{let mut x=}|11
{box}|4
{box let mut x=1}|5
{x=}|3
{1=2}|2
{-x}|2
{--1}|2
{+1}|1
{*1}|2
{**}|3
{&1}|2
{&&x}|2
{&mut 1}|6
{dup 1}|5
{dup x=1}|6
{(1)}|3
{(1+)}|4
{(1+2}|5
{(1 2)}|4
{(x==1)}|4
{()+1}|3
{spawn{}}|6
{spawn(){}{}}|10
{spawn(x y){}}|9
{spawn(x,){}}|9
{spawn(,x){}}|7
{spawn(1){}}|7
{spawn(*x){}}|7
{spawn()1}|8
{spawn()}|8
{par(){}}|8
{par(){}()1}|10
{par(){}(){}(){}}|12
{lock m{}}|7
{lock m as{}}|10
{lock m as c 1}|13
{lock 1 as c{}}|6
{if}|1
{else}|1
{while}|1
{fn}|1
{as}|1
{mut x}|1
print 1|0
{ print 1|9
{} {}|3
{ 1 2 }|4
{ let x = 1 }|6
{ let mut 1 = 1 }|10
{ let mut x; }|11
{ box let mut x = 1 }|6
{ x = }|6
{ - x }|4
{ *1 }|3
{ (1) }|4
{ let mut r = &1 }|15
{ spawn (x,) {} }|11
{ spawn () 1 }|11
{ par () {} }|12
{ lock m as 1 {} }|12
{ dup 1 }|6
{ if }|2
";

// The ninth star of a place, or a term of level 65.
const TOO_DEEP: &str = "\
{{{{{{{{{{{{{{{{{{{{{{{{{{{{{{{{{{{{{{{{{{{{{{{{{{{{{{{{{{{{{{{{{}|64
{*********x}|9
{&mut *********x}|14
{dup *********x}|13
{lock *********x as c{}}|14
{x=*********y}|11
{ *********x }|10
";

// So many blocks, a text in them, and what that is.
const LEVELS: &str = "\
64||a program
65||refused depth at 64
63|1|a program
64|1|refused depth at 64
63|box 1|refused depth at 67
63|box let|refused syntax at 67
63|let mut x=1|refused depth at 73
64|let mut x=1|refused depth at 64
63|x=1|refused depth at 65
63|(1+2)|refused depth at 64
62|(1+2)|a program
63|spawn(){}|refused depth at 70
62|spawn(){}|a program
63|spawn()1|refused syntax at 70
64|;|refused syntax at 64
";

// The refusal of a source.
fn refusal(rt: &impl Abort, alloc: Global, source: &[u8]) -> Option<ParseError>
    requires { length source.now ≤ most_bytes }
{
    let list = tokens(alloc, source).expect(rt, "no tokens");
    parse(alloc, &list).err()
}

// Each row, a source and a place, is refused so.
fn refuses(rt: &impl Abort, alloc: Global, rows: &str, too_deep: bool) {
    for row in rows.lines() {
        let (source, place) = row.split_once('|').expect(rt, "a place");
        let place = place.parse::<u32>().expect(rt, "a number");
        let want = if too_deep {
            ParseError::TooDeep { place }
        } else {
            ParseError::Syntax { place }
        };
        assert!(rt; source.len() < 400);
        assert_eq!(rt;
            refusal(rt, alloc, source.as_bytes()),
            Some(want),
            "{source}"
        );
    }
}

// The text in so many blocks.
fn nested(alloc: Global, levels: u32, text: &str) -> Result<Vec<u8>, Fail> {
    let mut bytes = Vec::new(alloc);
    for _ in 0..levels {
        bytes.push(b'{')?;
    }
    bytes.extend_from_slice(text.as_bytes())?;
    for _ in 0..levels {
        bytes.push(b'}')?;
    }
    Ok(bytes)
}

#[test]
fn refusals(rt: HostRuntime) {
    refuses(&rt, rt.alloc(), NO_ENTRY, false);
    refuses(&rt, rt.alloc(), TOO_DEEP, true);
}

#[test]
fn levels(rt: HostRuntime) -> Result<(), Fail> {
    for row in LEVELS.lines() {
        let (levels, rest) = row.split_once('|').expect(&rt, "a text");
        let (text, want) = rest.split_once('|').expect(&rt, "a refusal");
        let levels = levels.parse::<u32>().expect(&rt, "a number");
        let source = nested(rt.alloc(), levels, text)?;
        assert!(rt; source.len() < 400);
        let given = match refusal(&rt, rt.alloc(), &source) {
            Some(error) => format!(in rt.alloc(); "{error}")?,
            None => String::from_str(rt.alloc(), "a program")?,
        };
        assert_eq!(rt; given.as_str(), want, "{row}");
    }
    Ok(())
}
