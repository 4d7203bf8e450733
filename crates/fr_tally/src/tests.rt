//! Counts by hand.

use super::*;

#[derive(Clone, Copy)]
enum Kind {
    Fetch,
    Fetched,
    Move,
    Moved,
    Drop,
    Lock,
    Granted,
    Unlock,
    Dup,
    Dupped,
    Release,
    Start,
    Join,
    Joined,
    Finished,
    Migrate,
}

// The number of a kind.
fn number(kind: Kind) -> usize {
    each_kind!(kind, Kind; 0, 1, 2, 3, 4, 5, 6, 7, 8, 9, 10, 11, 12, 13, 14, 15)
}

#[test]
fn each_kind_has_its_number(rt: HostRuntime) {
    let kinds = each_kind!(Kind);
    for (at, kind) in kinds.iter().enumerate() {
        assert_eq!(rt; number(*kind), at);
    }
    assert_eq!(rt; kinds.len(), 16);
}

#[test]
fn counts_each_kind(rt: HostRuntime) {
    let mut tally: Tally<3> = Tally::new();
    for kind in [2, 0, 2] {
        assert!(rt; kind < 3 && tally.total() < 3);
        tally.add(kind);
    }
    for (kind, count) in [(0, 1), (1, 0), (2, 2)] {
        assert!(rt; kind < 3);
        assert_eq!(rt; tally.count(kind), count);
    }
    assert_eq!(rt; tally.total(), 3);
}
