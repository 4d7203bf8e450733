//! What is said of a cluster to which a run leads depends on no order in which messages wait.

ghost use Rattle.law_runs_right.specs.order.Laws.{LeftInAnyOrder, RightInAnyOrder};

/// Where few events were done, a cluster to which a right run of a program leads under a journal is one in whatever order its messages wait: coherent, with the one heap
/// of the program's own plain run, with the messages that the journal's acts send; it goes on where it is going, and where it is finished nothing is left.
pub fn right_in_any_order()
    ensures { RightInAnyOrder }
{}

/// A coherent cluster that a journal leaves, under the plain run of the cluster's own code, is left by it in whatever order its messages wait.
pub fn left_in_any_order()
    ensures { LeftInAnyOrder }
{}
