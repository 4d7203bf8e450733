//! Laws of orders.

ghost use Rattle.std.specs.Prelude.{◌≡◌, ◌⊎◌, ◌↔◌, ◌+◌, ◌++◌, ◌∷◌, ℕ, List};
ghost use Rattle.journal.specs.OrderText.{IsOrder, IsRefused, BeginsNoLine, FirstIsNoLine, steps_of};
ghost use Rattle.journal.specs.WrittenOrder.{IsOrderText};
ghost use Rattle.fr_base.specs.declared.step.Fresh.{Fresh};
ghost use Rattle.journal.specs.declared.order.OrderLine.{OrderLine};

/// A text is the text of one list of lines, or it is refused at one place, and never both.
pub fn one_order()
    ensures lines { (place : ℕ) (bytes : List ℕ) (ls ms : List OrderLine) → IsOrder place bytes ls → IsOrder place bytes ms → ls ≡ ms }
    ensures fault { (place : ℕ) (bytes : List ℕ) (p q : ℕ) → IsRefused place bytes p → IsRefused place bytes q → p ≡ q }
    ensures never_both { (place : ℕ) (bytes : List ℕ) (ls : List OrderLine) (p : ℕ) → IsOrder place bytes ls → IsRefused place bytes p → ⊥ }
    ensures either { (place : ℕ) (bytes : List ℕ) → ((ls : List OrderLine) × IsOrder place bytes ls) ⊎ ((p : ℕ) × IsRefused place bytes p) }
{}

/// The steps of an order are those of its lines in order. Two lines that follow one another, of one thread and with the same
/// names, spell what one line with both counts spells.
pub fn same_steps()
    ensures appended { (ls ms : List OrderLine) → steps_of (ls ++ ms) ≡ steps_of ls ++ steps_of ms }
    ensures joined { (l m n : OrderLine) (rest : List OrderLine) → l.thread ≡ m.thread → l.fresh ≡ m.fresh → n.thread ≡ m.thread → n.fresh ≡ m.fresh → n.steps ≡ l.steps + m.steps → steps_of (l ∷ m ∷ rest) ≡ steps_of (n ∷ rest) }
{}

/// Bytes that no line's text begins are those whose first line, up to its newline or to the end, is no line's text.
pub fn by_lines()
    ensures { (bytes : List ℕ) → BeginsNoLine bytes ↔ FirstIsNoLine bytes }
{}

/// What is written for an order is read again as lines that spell it, and is refused nowhere; and steps have one such text.
pub fn written_is_read()
    ensures spelled { (steps : List (ℕ × Fresh)) (bytes : List ℕ) (ls : List OrderLine) → IsOrderText steps bytes → IsOrder 0 bytes ls → steps_of ls ≡ steps }
    ensures never_refused { (steps : List (ℕ × Fresh)) (bytes : List ℕ) (place : ℕ) → IsOrderText steps bytes → IsRefused 0 bytes place → ⊥ }
    ensures one_text { (steps : List (ℕ × Fresh)) (one other : List ℕ) → IsOrderText steps one → IsOrderText steps other → one ≡ other }
{}
