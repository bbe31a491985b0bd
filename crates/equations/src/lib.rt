// The equations of a table's streams, the one set of values that meets them, and the alarms that it
// calls.
#![tactic(auto)]

ghost use Rattle.equations.specs.Examples.{M2Repeats, M2LooksAhead, CallsInTurn};
ghost use Rattle.equations.specs.Laws.{ExactlyOne, AtMostOne, OnThePast};

/// Does nothing: its contract says that exactly one set of values meets the equations of a table
/// that the check accepts.
pub fn laws()
    ensures one { ExactlyOne }
    ensures most { AtMostOne }
    ensures past { OnThePast }
{}

/// Does nothing: its contract has the values of two small tables, and the alarms of a third.
pub fn worked_values()
    ensures repeats { M2Repeats }
    ensures ahead { M2LooksAhead }
    ensures alarms { CallsInTurn }
{}
