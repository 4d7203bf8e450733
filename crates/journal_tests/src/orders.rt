//! Texts of orders, read and refused.

ghost use Rattle.journal.specs.Journals.{NamesItsThread};

use crate::answers::first_wrong;
use fr_base::{Fresh, Labels, MutexNo, ThreadNo};
use journal::{Acts, Entry, Journal, Order, OrderError, OrderLine, order_text, read_order};
use std::alloc::Global;
use std::test::Fail;

fn line(place: usize, thread: (u8, u32), steps: u64, fresh: Fresh) -> OrderLine {
    OrderLine {
        place,
        thread: ThreadNo::new(thread.0, thread.1),
        steps,
        fresh,
    }
}

// Whether the order has these lines, in their order.
fn has_lines(order: &Order, want: &[OrderLine]) -> bool {
    order.len() == want.len() as u64
        && order.at(want.len() as u64).is_none()
        && want
            .iter()
            .enumerate()
            .all(|(at, line)| order.at(at as u64) == Some(line))
}

// Whether the text from that byte on is an order of these lines.
fn reads(alloc: Global, text: &[u8], from: usize, want: &[OrderLine]) -> bool {
    match read_order(alloc, text, from) {
        Ok(order) => has_lines(&order, want),
        Err(_) => false,
    }
}

// The place where the text from that byte on is refused.
fn refused_at(alloc: Global, text: &[u8], from: usize) -> Option<usize> {
    match read_order(alloc, text, from) {
        Err(OrderError::BadOrder { place }) => Some(place),
        Ok(_) | Err(OrderError::NoMemory) => None,
    }
}

#[test]
fn orders_and_their_lines(rt: HostRuntime) {
    let alloc = rt.alloc();
    let new = Fresh::Thread(ThreadNo::new(0, 1));
    let two = Fresh::Threads(ThreadNo::new(0, 1), ThreadNo::new(0, 2));
    let mutex = Fresh::Mutex(MutexNo {
        home: 255,
        count: 4_294_967_295,
    });
    let right = [
        reads(alloc, b"", 0, &[]),
        reads(alloc, b"0.0 1\n", 0, &[line(0, (0, 0), 1, Fresh::None)]),
        reads(
            alloc,
            b"0.0 thread 0.1\n0.0 1\n0.1 1000000000\n",
            0,
            &[
                line(0, (0, 0), 1, new),
                line(15, (0, 0), 1, Fresh::None),
                line(21, (0, 1), 1_000_000_000, Fresh::None),
            ],
        ),
        reads(
            alloc,
            b"255.4294967295 threads 0.1 0.2\n",
            0,
            &[line(0, (255, 4_294_967_295), 1, two)],
        ),
        reads(
            alloc,
            b"10.20 mutex 255.4294967295\n10.20 7\n10.20 8\n",
            0,
            &[
                line(0, (10, 20), 1, mutex),
                line(27, (10, 20), 7, Fresh::None),
                line(35, (10, 20), 8, Fresh::None),
            ],
        ),
    ];
    assert_eq!(rt; first_wrong(&right), None);
}

#[test]
fn places_count_from_the_first_byte_of_all(rt: HostRuntime) {
    let alloc = rt.alloc();
    let want = [
        line(4, (0, 0), 2, Fresh::None),
        line(10, (1, 0), 3, Fresh::None),
    ];
    let right = [
        reads(alloc, b"{ }%0.0 2\n1.0 3\n", 4, &want),
        reads(alloc, b"{ }%", 4, &[]),
        reads(alloc, b"{ }%0.0 2\n", 11, &[]),
        refused_at(alloc, b"{ }%0.0 2\n1.0 0\n", 4) == Some(10),
        refused_at(alloc, b"{ }%0.0 2\n", 3) == Some(3),
    ];
    assert_eq!(rt; first_wrong(&right), None);
}

// Texts that are refused at their first byte.
const WRONG_NUMBERS: &str = "\
0.0 0\n|
0.0 01\n|
0.0 00\n|
00.0 1\n|
0.00 1\n|
01.0 1\n|
0.01 1\n|
0.0 1000000001\n|
0.0 9999999999\n|
0.0 18446744073709551616\n|
0.0 18446744073709551617\n|
0.0 100000000000000000000000000000000000001\n|
256.0 1\n|
999.0 1\n|
0.4294967296 1\n|
0.18446744073709551616 1\n|
-1.0 1\n|
+1.0 1\n|
0.0 -1\n|
0.0 +1\n|
0.0 1.0\n|
0.0 0x1\n|
0.0 1_000\n|
0.0 one\n|
0.0 thread 256.1\n|
0.0 thread 0.01\n|
0.0 threads 0.1 0.4294967296\n|
0.0 mutex 0.4294967296\n";

// The same.
const WRONG_PARTS: &str = "\
\n|
 \n|
0.0 1|
0.0|
0.0\n|
0.0 \n|
0 1\n|
0. 1\n|
.0 1\n|
0,0 1\n|
0.0  1\n|
 0.0 1\n|
0.0 1 \n|
0.0\t1\n|
0.0 1\r\n|
0.0 1\0\n|
0.0 1 1\n|
0.0 thread\n|
0.0 thread \n|
0.0 thread 0\n|
0.0 thread 0.1|
0.0 thread 0.1 0.2\n|
0.0 thread  0.1\n|
0.0 thread0.1\n|
0.0 Thread 0.1\n|
0.0 THREADS 0.1 0.2\n|
0.0 threads 0.1\n|
0.0 threads 0.1  0.2\n|
0.0 threads 0.1 0.2 0.3\n|
0.0 mutexes 0.1\n|
0.0 mutex\n|
0.0 join 0.1\n|
0.0 ١\n";

// The first text that isn't refused at its first byte.
fn read_nevertheless<'a>(alloc: Global, texts: &'a str) -> Option<&'a str> {
    texts
        .split("|\n")
        .find(|text| refused_at(alloc, text.as_bytes(), 0) != Some(0))
}

#[test]
fn lines_with_wrong_numbers(rt: HostRuntime) {
    assert_eq!(rt; read_nevertheless(rt.alloc(), WRONG_NUMBERS), None);
}

#[test]
fn lines_with_wrong_parts(rt: HostRuntime) {
    assert_eq!(rt; read_nevertheless(rt.alloc(), WRONG_PARTS), None);
}

// Places, and texts whose first wrong line stands there.
const WRONG_LATER: &str = "\
6:0.0 1\n\n|
6:0.0 1\n0.0 0\n|
6:0.0 1\n0.0 1|
6:0.0 1\n\n0.0 0\n|
12:0.0 1\n0.0 2\n0.0 03\n0.0 4\n|
15:0.0 thread 0.1\n0.1 thread\n|
14:0.0 mutex 0.1\n256.0 1\n0.0 0\n|
6:0.0 1\n 0.0 1\n|
6:0.0 1\n0.0 1\r\n|
6:0.0 1\n%";

// Whether the text of a row is refused at the row's place.
fn is_refused_there(alloc: Global, row: &str) -> bool {
    match row.split_once(':') {
        Some((place, text)) => refused_at(alloc, text.as_bytes(), 0) == place.parse::<usize>().ok(),
        None => false,
    }
}

// The first row that is wrong.
fn wrong_row<'a>(alloc: Global, rows: &'a str) -> Option<&'a str> {
    rows.split("|\n").find(|row| !is_refused_there(alloc, *row))
}

#[test]
fn the_first_wrong_line(rt: HostRuntime) {
    assert_eq!(rt; wrong_row(rt.alloc(), WRONG_LATER), None);
}

// Whether an order of that many lines ends with this one.
fn ends_with(alloc: Global, bytes: &[u8], count: u64, last: OrderLine) -> bool {
    match read_order(alloc, bytes, 0) {
        Ok(order) => order.len() == count && order.at(count.saturating_sub(1)) == Some(&last),
        Err(_) => false,
    }
}

// The number of the first wrong answer on a megabyte of lines.
fn wrong_lines(alloc: Global, text: &mut Vec<u8>) -> Result<Option<usize>, Fail> {
    for _ in 0..131_072u32 {
        text.extend_from_slice(b"0.1 200\n")?;
    }
    let last = line(1_048_568, (0, 1), 200, Fresh::None);
    let read = ends_with(alloc, text.as_slice(), 131_072, last);
    text.extend_from_slice(b"0.1 0\n")?;
    let refused = refused_at(alloc, text.as_slice(), 0);
    Ok(first_wrong(&[read, refused == Some(1_048_576)]))
}

#[test]
fn a_megabyte_of_lines(rt: HostRuntime) -> Result<(), Fail> {
    let mut text = Vec::new(rt.alloc());
    assert_eq!(rt; wrong_lines(rt.alloc(), &mut text)?, None);
    Ok(())
}

// Where a megabyte of digits is refused.
fn digits_refused_at(alloc: Global, text: &mut Vec<u8>) -> Result<Option<usize>, Fail> {
    text.extend_from_slice(b"0.0 1\n0.0 1")?;
    for _ in 0..65_536u32 {
        text.extend_from_slice(b"0000000000000000")?;
    }
    text.extend_from_slice(b"\n")?;
    Ok(refused_at(alloc, text.as_slice(), 0))
}

#[test]
fn a_megabyte_of_digits(rt: HostRuntime) -> Result<(), Fail> {
    let mut text = Vec::new(rt.alloc());
    assert_eq!(rt; digits_refused_at(rt.alloc(), &mut text)?, Some(6));
    Ok(())
}

// Whether two lines are read, or nothing for want of memory.
fn reads_two_or_nothing(alloc: Global) -> bool {
    match read_order(alloc, b"0.0 1\n0.1 2\n", 0) {
        Ok(order) => order.len() == 2,
        Err(error) => error == OrderError::NoMemory,
    }
}

// Whether an order that had room keeps its line.
fn keeps_its_line(order: &mut Order) -> bool {
    if order.reserve(1).is_err() {
        return true;
    }
    let one = line(0, (0, 0), 1, Fresh::None);
    let pushed = order.push(one).is_ok();
    let _more = order.push(line(6, (0, 1), 2, Fresh::None));
    pushed && order.at(0) == Some(&one)
}

// Each allocation may fail: then nothing is read, and a list that had room keeps its lines.
#[test]
fn an_order_or_no_memory(rt: HostRuntime) {
    let mut order = Order::new(rt.alloc());
    let right = [reads_two_or_nothing(rt.alloc()), keeps_its_line(&mut order)];
    assert_eq!(rt; first_wrong(&right), None);
}

fn turn(thread: ThreadNo, done: Option<Fresh>, alloc: Global) -> Entry
    ensures names { NamesItsThread result }
{
    Entry {
        server: 0,
        thread: Some(thread),
        done,
        acts: Acts::new(alloc),
        labels: Labels::new(alloc),
    }
}

// Steps of two threads, a step with a name and an entry without a step.
fn add_turns(alloc: Global, journal: &mut Journal) -> Result<(), Fail> {
    let main = ThreadNo::new(0, 0);
    let other = ThreadNo::new(1, 7);
    let mutex = MutexNo { home: 2, count: 1 };
    for (thread, done) in [
        (main, Some(Fresh::None)),
        (other, None),
        (main, Some(Fresh::None)),
        (main, Some(Fresh::Thread(other))),
        (main, Some(Fresh::None)),
        (other, Some(Fresh::Threads(main, other))),
        (other, Some(Fresh::None)),
        (main, Some(Fresh::Mutex(mutex))),
        (main, Some(Fresh::None)),
    ] {
        journal.push(turn(thread, done, alloc))?;
    }
    Ok(())
}

// Whether the order of the journal has that text.
fn has_order(alloc: Global, journal: &Journal, want: &str) -> Result<bool, Fail> {
    Ok(order_text(alloc, journal)?.as_str() == want)
}

// The number of the first wrong answer, of a journal that is empty before.
fn wrong_order(alloc: Global, journal: &mut Journal) -> Result<Option<usize>, Fail> {
    let want = "0.0 2\n0.0 thread 1.7\n0.0 1\n1.7 threads 0.0 1.7\n1.7 1\n0.0 mutex 2.1\n0.0 1\n";
    let empty = has_order(alloc, journal, "")?;
    add_turns(alloc, journal)?;
    let right = [empty, has_order(alloc, journal, want)?];
    Ok(first_wrong(&right))
}

#[test]
fn neighbouring_steps_share_a_line(rt: HostRuntime) -> Result<(), Fail> {
    let mut journal = Journal::new(rt.alloc());
    assert_eq!(rt; wrong_order(rt.alloc(), &mut journal)?, None);
    Ok(())
}
