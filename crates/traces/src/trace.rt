// A trace: rows written down before, and how many of them were given.
ghost use Rattle.std.specs.Prelude.{◌≡◌, ◌≤◌, true, is_ok, length};
ghost use Rattle.traces.specs.Reading.{rows};

use sampling::row::Row;

// A trace that was opened: rows that are given one at each latch.
#[derive(Drop)]
pub struct Trace {
    pub(crate) bytes: Vec<u8>,
    // Where the next row begins.
    pub(crate) at: usize,
    // How many rows were given.
    pub(crate) given: usize,
    pub(crate) present: Row,
    ghost short: { length bytes.items ≤ 65536 },
    ghost inside: { at ≤ length bytes.items },
    ghost counted: { given ≤ at },
    // what is left was looked at when the trace was opened
    ghost whole: { is_ok (rows (length bytes.items) bytes.items at) ≡ true },
}
