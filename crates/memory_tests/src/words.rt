//! Words by hand.

use global_addr::{Word, words_law};

#[test]
fn has_its_fields(rt: HostRuntime) {
    let word = Word::pack(3, 1, 5);
    assert_eq!(rt; word, Word::pack(3, 1, 5));
    assert!(rt; word.number() == 845_524_441_759_749 && word.number() == 0x0003_0100_0000_0005);
    assert_eq!(rt; (word.colour(), word.server(), word.address()), (3, 1, 5));
    let high = Word::pack(65_535, 255, 1_099_511_627_775);
    assert!(rt; high.number() == u64::MAX);
    assert_eq!(rt;
        (high.colour(), high.server(), high.address()),
        (65_535, 255, 1_099_511_627_775)
    );
}

#[test]
fn ends_at_the_limit(rt: HostRuntime) {
    let word = Word::pack(3, 1, 5);
    assert!(rt; word.colour() == 3);
    assert_eq!(rt; word.next_colour(4), None);
    assert_eq!(rt; word.next_colour(5), Some(Word::pack(4, 1, 5)));
    assert_eq!(rt; word.next_colour(65_536), Some(Word::pack(4, 1, 5)));
    let last = Word::pack(65_535, 0, 0);
    assert!(rt; last.colour() == 65_535);
    assert_eq!(rt; last.next_colour(65_536), None);
    assert_eq!(rt; Word::pack(0, 9, 1).next_colour(1), None);
    words_law();
}
