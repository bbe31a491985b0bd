// The engine: a table's values in rings of the caller's memory, tick by tick.
#![tactic(auto)]

ghost use Rattle.engine.specs.Laws.{IsLawful};

use tables::table::Table;

mod reader;
pub mod reading;
mod ring;
pub mod rules;
pub mod tick;

/// Does nothing: its contract says that exactly one set of values meets the equations of any table,
/// and what its rings hold after each call.
pub fn laws(_table: &Table)
    ensures { IsLawful _table.now }
{}

#[cfg(test)]
mod tests;
