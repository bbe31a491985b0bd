// The caller's memory in which a walk is listed.
ghost use Rattle.std.specs.Prelude.{◌≤◌, length};
ghost use Rattle.walks.specs.declared.sheet.TheConstants.{LEAST_SHEET};

use crate::edge::SheetEntry;
use crate::graph::MOST_EDGES;

// How many entries a sheet has at least: a walk to blame may have so many references.
pub const LEAST_SHEET: usize = MOST_EDGES;

// A sheet that has an entry for each reference of any walk to blame.
// What takes one as `&mut` also promises that it still lends the same entries, or its holder would not learn what was written to them.
#[derive(Drop)]
pub struct Sheet<'a> {
    pub entries: &'a mut [SheetEntry],
    pub ghost long: { LEAST_SHEET ≤ length entries.now },
}
