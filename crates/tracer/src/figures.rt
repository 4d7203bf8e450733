//! What a report counts of a journal.

ghost use Rattle.std.specs.Prelude.{◌≡◌, ◌<◌, ◌≤◌, ◌^◌, ◌∷◌, [], false, is_some};
ghost use Rattle.fr_base.specs.Lists.{one};
ghost use Rattle.coloured_heap.specs.Figures.{evictions, hits, issues, renewals, steps};
ghost use Rattle.tracer.specs.Counting.{figure_of, with_acts};

use journal::{Act, Entry, Journal};

/// A figure that counts acts.
#[derive(Clone, Copy)]
pub(crate) enum Figure {
    Issued,
    Renewed,
    Hits,
    Evictions,
}

/// What a report counts of a journal beside its entries and messages. (A sum over all entries is below 2^128, as each entry has
/// fewer than 2^64 acts and there are fewer entries than that.)
#[derive(Clone, Copy)]
pub(crate) struct Figures {
    pub(crate) steps: u64,
    pub(crate) issued: u128,
    pub(crate) renewed: u128,
    pub(crate) hits: u128,
    pub(crate) evictions: u128,
}

// Whether the act counts for the figure.
fn is_counted(figure: Figure, act: Act) -> bool
    ensures { one result ≡ figure_of figure (with_acts (act ∷ [])) }
{
    match (figure, act) {
        (Figure::Issued, Act::Make(_, _)) => true,
        (Figure::Issued, Act::Take(_, _, _)) => true,
        (Figure::Issued, Act::Tint(_, _, _)) => true,
        (Figure::Issued, Act::Renew(_, _, _)) => true,
        (Figure::Renewed, Act::Renew(_, _, _)) => true,
        (Figure::Hits, Act::Hit(_, _)) => true,
        (Figure::Evictions, Act::Evict(_)) => true,
        _ => false,
    }
}

// How many of these acts count for the figure.
fn count_acts(figure: Figure, acts: &[Act]) -> u64
    ensures { result ≡ figure_of figure (with_acts acts.now) }
{
    let mut count = 0;
    'acts: for act in acts {
        if is_counted(figure, *act) {
            count += 1;
        }
    }
    count
}

// How many acts of an entry count for the figure.
fn count_in(figure: Figure, entry: &Entry) -> u128
    ensures count { result ≡ figure_of figure (with_acts entry.now.acts) }
    ensures most { result < 2 ^ 64 }
{
    u128::from(count_acts(figure, entry.acts.as_slice()))
}

// How many plain steps an entry did: one or none.
fn steps_in(entry: &Entry) -> u64
    ensures count { result ≡ one (is_some entry.now.done) }
    ensures most { result ≤ 1 }
{
    if entry.done.is_some() { 1 } else { 0 }
}

// Whether an entry has acts.
fn has_acts(entry: &Entry) -> bool
    ensures no { result ≡ false → entry.now.acts ≡ [] }
{
    entry.acts.len() > 0
}

/// The figures of a journal, in one pass. No memory; it takes time in the number of acts.
pub(crate) fn figures_of(journal: &Journal) -> Figures
    ensures steps { result.steps ≡ steps journal.now.items }
    ensures issued { result.issued ≡ issues journal.now.items }
    ensures renewed { result.renewed ≡ renewals journal.now.items }
    ensures hits { result.hits ≡ hits journal.now.items }
    ensures evictions { result.evictions ≡ evictions journal.now.items }
{
    let mut steps = 0;
    let mut issued = 0;
    let mut renewed = 0;
    let mut hits = 0;
    let mut evictions = 0;
    'entries: for entry in journal.as_slice() {
        steps += steps_in(entry);
        if has_acts(entry) {
            issued += count_in(Figure::Issued, entry);
            renewed += count_in(Figure::Renewed, entry);
            hits += count_in(Figure::Hits, entry);
            evictions += count_in(Figure::Evictions, entry);
        }
    }
    Figures {
        steps,
        issued,
        renewed,
        hits,
        evictions,
    }
}
