//! Entries of writes through stars and of ends of references that end in a request.

ghost use Rattle.law_entries_writes.specs.asks.Each.{EachStepThatAsksLegal};
ghost use Rattle.law_entries_writes.specs.asks.Writes.{AssignmentsThatAskLegal, DiscardsThatAskLegal, DropsThatAskLegal, MovesThatAskLegal};

/// From a coherent cluster with few events the entry of a move out of a place, or of an assignment to one, that ends in a request is legal in each coloured heap that the cluster stands for,
/// and leads to one that it stands for afterwards, the message handed over, through however many stars: each box on the way got the next colour, or at the last one its object another
/// address, and an object that lies elsewhere is asked for. An assignment to a variable ends the mutable reference that stands there.
pub fn writes_that_ask_are_legal()
    ensures moves { MovesThatAskLegal }
    ensures assignments { AssignmentsThatAskLegal }
{}

/// So is that of a discard, and of the drop of the newest slot, where a mutable reference ends: its object is asked for where it is dirty at the last colour and lies elsewhere, or it was
/// cleaned, and an object on the way to its holder is asked for.
pub fn ends_that_ask_are_legal()
    ensures discards { DiscardsThatAskLegal }
    ensures drops { DropsThatAskLegal }
{}

/// So is that of each step of a thread that ends in a request, whatever its instruction: one that writes or ends a reference, one that reads or borrows, and a join; no other asks for
/// anything.
pub fn steps_that_ask_are_legal()
    ensures { EachStepThatAsksLegal }
{}
