// What is claimed of lists of arrivals, over a table and over a record lent alone. There is nothing to run here: `table::receive` and
// `table::receive_record` are the calls, and their contracts equate them with the functions that the claim is about.
#![tactic(auto)]

ghost use Rattle.arrivals.specs.Arrivals.{ListsOfArrivals};
ghost use Rattle.arrivals.specs.Limits.{OwnLimits};
ghost use Rattle.arrivals.specs.Listener.{Listener};

#[tactic(auto, using(crate::proofs::Fixed::lists_of_arrivals))]
fn lists_of_arrivals()
    ensures { ListsOfArrivals }
{}

// Only a stream's own answers read its limit, and no arrival changes one.
#[tactic(auto, using(crate::proofs::Limits::own_limits))]
fn own_limits()
    ensures { OwnLimits }
{}

// A listener that has newly admitted a stream raises no sequence or block flag for one sender's successive frames.
fn sender_heard()
    ensures { Listener }
{}
