//! What each thing of a cluster keeps by itself, whatever event is done.

ghost use Rattle.law_counts_sums.specs.Below.coherent_memory.Coherent.{asks_others, at_their_home, content_without_shares, go_right, join_walks_nothing, options_in_range, over_are_bare, par_ends, parcels_ready, passed_in_a_walk, queue_while_out, thread_homes, walk_empty};
ghost use Rattle.law_counts_things.specs.things.Laws.{EachCoherentEventKeeps, EachEventKeeps};

/// What a thread keeps by itself, whatever its values are: where it doesn't walk, and at a join, its walk is empty; it has passed hops in a walk alone; one that
/// moves is ready; and its home is the server of its number.
pub fn threads_keep()
    ensures walk_empty { EachEventKeeps walk_empty }
    ensures join_walks_nothing { EachEventKeeps join_walks_nothing }
    ensures passed_in_a_walk { EachEventKeeps passed_in_a_walk }
    ensures parcels_ready { EachEventKeeps parcels_ready }
    ensures thread_homes { EachEventKeeps thread_homes }
{}

/// What each message keeps by itself: it goes to the server that it is for, which is of the run, and a request for an object goes to another server than that of its
/// thread. The options stay.
pub fn messages_keep()
    ensures go_right { EachEventKeeps go_right }
    ensures asks_others { EachEventKeeps asks_others }
    ensures options_in_range { EachEventKeeps options_in_range }
{}

/// What the rest of a server keeps: each of its mutexes has its number, nobody waits for a content that is in, and without a share the content is out.
pub fn servers_keep()
    ensures at_their_home { EachEventKeeps at_their_home }
    ensures queue_while_out { EachEventKeeps queue_while_out }
    ensures content_without_shares { EachEventKeeps content_without_shares }
{}

/// What a thread keeps by the table of its code, in a coherent cluster: it is at the end of a pair exactly where it waits for one or has got one, and once it is
/// over it has nothing.
pub fn threads_keep_to_code()
    ensures par_ends { EachCoherentEventKeeps par_ends }
    ensures over_are_bare { EachCoherentEventKeeps over_are_bare }
{}
