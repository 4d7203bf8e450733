//! No word is issued twice.

ghost use Rattle.owner_box.specs.Issued.{StartedFits, MadeFresh, RenewedFresh, FreedFits, StoredFits, TintedFits, OthersFit};
ghost use Rattle.owner_box.specs.States.{FreePairsAreStates, RetiredIsExact};
ghost use Rattle.owner_box.specs.Runs.{NoWordTwice, NoneAgain};

/// The word of a made or renewed object was never issued, nor was a later colour of its address: so among each set of
/// words that fits the partition's state (`made`, `renewed`). It fits at the start (`started`), and what fits stays so
/// under every call and every tint (`freed`, `stored`, `tinted`), whatever words other servers issue (`others`).
pub fn fresh_law()
    ensures started { StartedFits }
    ensures made { MadeFresh }
    ensures renewed { RenewedFresh }
    ensures freed { FreedFits }
    ensures stored { StoredFits }
    ensures tinted { TintedFits }
    ensures others { OthersFit }
{}

/// In a run of calls under their conditions, with any colour limit, in which each word handed to `give`, `renew` or `free`
/// has at least the colour of every word of its address that was issued before, the partition gives no word twice, and
/// none that was issued as a tint (`no_word_twice`); so from any state, over the words issued before (`none_again`).
pub fn runs_law()
    ensures no_word_twice { NoWordTwice }
    ensures none_again { NoneAgain }
{}

/// Each address of a tidy partition is in one state, as read off its cells and free pairs: a free pair is the state of its
/// address (`free`), and the retired number is the number of addresses used before that are neither live nor free
/// (`retired`).
pub fn states_law()
    ensures free { FreePairsAreStates }
    ensures retired { RetiredIsExact }
{}
