//! How long an order of a program is.

ghost use Rattle.law_length_programs.specs.orders.Orders.{OrdersAreShort};
ghost use Rattle.law_length_programs.specs.orders.Sources.{ProgramsHaveBlocks, TreesHaveTheirNodes};

use crate::programs_do_few_steps;

/// A plain run of a program has at most so many plain steps and threads, main among them, as twice the nodes of its tree, whatever the order: each step is one of those that the program has before
/// it at its start, and has names for threads that were to be started.
pub fn orders_are_short()
    ensures { OrdersAreShort }
{
    programs_do_few_steps();
}

/// What the threads of a program do is a block: its tokens spell nothing else.
pub fn programs_have_blocks()
    ensures { ProgramsHaveBlocks }
{}

/// The nodes of a tree, one for each term, each place and each captured name, are as many as those of its term.
pub fn trees_have_their_nodes()
    ensures { TreesHaveTheirNodes }
{}
