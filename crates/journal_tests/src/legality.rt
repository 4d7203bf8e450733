//! Journals that are legal, with the messages that their acts send, and journals that aren't, with their first entry that breaks a
//! rule. The counts and the places were worked out by hand, from the rules and not from the program.

use crate::answers::first_wrong;
use crate::rows::{journal_of, journal_with};
use coloured_heap::{LegalError, legal};
use fr_base::{NoMemory, Options};
use fr_tally::Tally;
use journal::Journal;
use std::alloc::Global;
use std::test::Fail;

// Two servers and four colours.
fn options() -> Options {
    Options {
        servers: 2,
        colours: 4,
        ..Options::DEFAULT
    }
}

// The main thread alone at server 0, where everything is: an object, which is written, and a mutex.
const AT_HOME: &str = "\
0 0.0 step make:0.0#0:0.0.0
0 0.0 step
0 0.0 step tint:0.0#0:0.0.0:1.0.0
0 0.0 step local:0.0#0:1.0.0
0 0.0 mutex:0.1
0 0.0 - asklock:0.1
0 - - grant:0.1:0.0:0
0 - -
0 0.0 step
0 0.0 step giveback:0.1 letgo:0.1
0 0.0 step condemn:0.0#0:1.0.0
0 - - free:0.0#0:1.0.0
0 0.0 step
";

// An object is read and then moved by thread 0.1 at server 1, which locks and shares a mutex of server 0 and ends; the main thread
// gives the object up, goes to server 1 too, and asks for the thread's result.
const FAR_AWAY: &str = "\
0 0.0 step make:0.0#0:0.0.0
0 0.0 mutex:0.1
0 0.0 thread:0.1 start:0.1:1
1 - -
1 0.1 - ask:0.0#0:0.0.0
0 - - serve:0.0#0:0.0.0:1
1 - - fill:0.0#0:0.0.0
1 0.1 step hit:0.0#0:0.0.0
1 0.1 - pull:0.0#0:0.0.0
0 - - give:0.0#0:0.0.0:1
1 - - take:0.0#0:0.0.0:0.1.0
1 0.1 - asklock:0.1
0 - - grant:0.1:0.1:1
1 0.1 step giveback:0.1
1 0.1 - askdup:0.1
0 - - dupped:0.1:0.1:1
1 0.1 step letgo:0.1
0 0.0 step condemn:0.0#0:0.1.0
1 - - free:0.0#0:0.1.0
1 0.1 step finish:0.1
0 - -
0 0.0 - depart:0.0:1
1 - -
1 0.0 - askjoin:0.1
0 - - answer:0.1:0.0:1
1 0.0 step
";

// Rows that break a rule where they stand before the row of that number of `FAR_AWAY`, on objects and their copies, on servers, threads and mutexes.
const BAD: &str = "\
# a colour that the run hasn't
0|0 0.0 - make:0.0#0:4.0.0
# a new object under a word that was issued, one that was made before, and one of another thread
1|0 0.0 - make:0.0#1:0.0.0
1|0 0.0 - make:0.0#0:1.0.0
3|1 0.1 - make:0.0#1:0.1.0
# the old word again, and a colour too many
1|0 0.0 - tint:0.0#0:0.0.0:0.0.0
1|0 0.0 - tint:0.0#0:0.0.0:2.0.0
# a copy that nobody asked for, that didn't come from there, and one more than were asked for
4|0 - - serve:0.0#0:0.0.0:1
5|1 - - fill:0.0#0:0.0.0
6|0 - - serve:0.0#0:0.0.0:1
# an ask for what is there already
7|1 0.1 - ask:0.0#0:0.0.0
# an object that is on its way, one under its old word, one that was given up and one that was freed
10|0 0.0 - local:0.0#0:0.0.0
11|1 0.1 - hit:0.0#0:0.0.0
18|1 0.1 - local:0.0#0:0.1.0
19|1 - - free:0.0#0:0.1.0
# a word that isn't cached, at the end
26|1 - - evict:0.1.0
# no server of the run
0|2 - -
# a mutex of another server, and one that was made before
1|0 0.0 mutex:1.1
2|0 0.0 mutex:0.1
# a thread that wasn't started, that stands elsewhere, and that left
2|1 0.1 step
3|0 0.1 step
22|0 0.0 step
# a thread that starts at the wrong server, and twice
2|0 0.0 - start:0.1:0
3|0 0.0 - start:0.1:1
# the second act alone
4|1 0.1 step ask:0.0#0:0.0.0 evict:0.0.0
# a mutex that is out, and one that another thread holds
13|0 - - grant:0.1:0.1:1
13|0 0.0 - giveback:0.1
# a thread that ends twice
20|1 0.1 - finish:0.1
# a move to no server of the run
22|1 0.0 - depart:0.0:2
# a result of a thread that goes on, that nobody asked for, and one more than were asked for
19|0 - - answer:0.1:0.0:0
20|0 - - answer:0.1:0.0:1
25|0 - - answer:0.1:0.0:1
";

// How many messages of each kind the acts send.
fn counts(tally: &Tally<16>) -> [u64; 16] {
    let mut counts = [0u64; 16];
    for kind in 0..16 {
        counts[kind] = tally.count(kind);
    }
    counts
}

// Whether the journal is legal, and sends so many messages of each kind to other servers.
fn is_legal(alloc: Global, journal: &Journal, want: [u64; 16]) -> Result<bool, Fail> {
    match legal(alloc, journal, &options()) {
        Ok(tally) => Ok(counts(&tally) == want),
        Err(LegalError::IllegalAt { .. }) => Ok(false),
        Err(LegalError::NoMemory) => Err(Fail::from(NoMemory)),
    }
}

// The same of the journal of the first so many rows.
fn sends(alloc: Global, rows: &str, count: usize, want: [u64; 16]) -> Result<bool, Fail> {
    is_legal(alloc, &journal_of(alloc, rows, count)?, want)
}

#[test]
fn legal_journals(rt: HostRuntime) -> Result<(), Fail> {
    let alloc = rt.alloc();
    // up to the copy that comes: a fetch, its answer and a start
    let some = [1, 1, 0, 0, 0, 0, 0, 0, 0, 0, 0, 1, 0, 0, 0, 0];
    let right = [
        sends(alloc, "", 0, [0; 16])?,
        sends(alloc, AT_HOME, 13, [0; 16])?,
        sends(alloc, FAR_AWAY, 26, [1; 16])?,
        sends(alloc, FAR_AWAY, 8, some)?,
    ];
    assert_eq!(rt; first_wrong(&right), None);
    Ok(())
}

// Whether the first entry that breaks a rule stands there.
fn breaks_at(alloc: Global, journal: &Journal, want: u64) -> Result<bool, Fail> {
    match legal(alloc, journal, &options()) {
        Err(LegalError::IllegalAt { place }) => Ok(place == want),
        Ok(_) => Ok(false),
        Err(LegalError::NoMemory) => Err(Fail::from(NoMemory)),
    }
}

// Whether the row behind the bar breaks a rule where it stands before the row of the number in front of it.
fn is_refused(alloc: Global, bad: &str) -> Result<bool, Fail> {
    let Some((place, row)) = bad.split_once('|') else {
        return Ok(false);
    };
    let Ok(place) = place.parse::<u32>() else {
        return Ok(false);
    };
    let journal = journal_with(alloc, FAR_AWAY, place as usize, row)?;
    breaks_at(alloc, &journal, u64::from(place))
}

// The first of the rows that breaks no rule there.
fn accepted<'a>(alloc: Global, rows: &'a str) -> Result<Option<&'a str>, Fail> {
    for row in rows.lines() {
        if !row.starts_with("# ") && !is_refused(alloc, row)? {
            return Ok(Some(row));
        }
    }
    Ok(None)
}

#[test]
fn refused_journals(rt: HostRuntime) -> Result<(), Fail> {
    assert_eq!(rt; accepted(rt.alloc(), BAD)?, None);
    Ok(())
}
