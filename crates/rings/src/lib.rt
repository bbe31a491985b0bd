// The theory of rings: what memory holds of a table's values, and what each call makes of it.
#![tactic(auto)]

ghost use Rattle.rings.specs.Laws.{Laws};

/// Does nothing: its contract says what the rings of a table that the check accepts hold after each
/// call, for every history of samples, and what is read off them then.
pub fn laws()
    ensures { Laws }
{}
