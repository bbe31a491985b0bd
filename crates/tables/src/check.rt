// The check of a table, and the first table, which it has to replace.
ghost use Rattle.std.specs.Prelude.{◌≡◌, IfOk};
ghost use Rattle.lists.specs.Lists.{items};
ghost use Rattle.tables.specs.Checking.{Admits, Answers, First, Decided};
ghost use Rattle.tables.specs.Contents.{greatest_lead_in};
ghost use Rattle.tables.specs.Tables.{bytes_of, channels_of, streams_of, rules_of, plan_of};

use crate::content::{Channel, Content, Stream};
use crate::reading::read_checked;
use crate::rejection::Rejection;
use crate::table::Table;
use faults::cause::Cause;
use faults::fault::Layer;
use faults::stop::Stop;
use lists::list::List;
use schedule::ordered::OrderedRecords;
use schedule::plan::{Counts, Plan, make_plan};
use std::alloc::{AllocError, Global};
use syntax::record::Rule;
use walks::edge::SheetEntry;
use walks::sheet::{LEAST_SHEET, Sheet};

// The table that the bytes write; or why they write none, with a walk to blame in the sheet's first entries.
fn accept(alloc: Global, bytes: &[u8], sheet: &mut [SheetEntry]) -> Result<Table, Stop>
    ensures { Admits bytes.now sheet.old sheet.new result }
{
    if sheet.len() < LEAST_SHEET {
        return Err(Stop::Refused(Cause::ShortSheet(sheet.len())));
    }
    let mut sheet = Sheet { entries: sheet };
    let records = read_checked(alloc, bytes)?;
    let ordered = OrderedRecords { records: &records };
    let plan = make_plan(alloc, &ordered, &mut sheet)?;
    let bytes = bytes.to_vec(alloc)?;
    let content = Content::new(alloc, records, &plan)?;
    Ok(Table {
        bytes,
        plan,
        content,
    })
}

impl Table {
    /// The first table, of the byte 01 alone; it errs for want of memory.
    pub fn new(alloc: Global) -> Result<Table, AllocError>
        ensures { IfOk result First }
    {
        let bytes = vec![in alloc; 1u8]?;
        let plan = Plan {
            counts: Counts::default(),
            order: List::new(),
            rings: List::new(),
        };
        let content = Content::new(alloc, Vec::new(alloc), &plan)?;
        Ok(Table {
            bytes,
            plan,
            content,
        })
    }

    /// Checks the bytes of a table and puts it in this one's place.
    ///
    /// It errs where the bytes are refused, with a walk to blame in the sheet's first entries, and for want of memory; this table is then as it was.
    pub fn check(
        &mut self,
        alloc: Global,
        bytes: &[u8],
        sheet: &mut [SheetEntry],
    ) -> Result<Counts, Rejection>
        ensures answer { Answers self.old self.new bytes.now sheet.old sheet.new result }
        ensures law { Decided bytes.now sheet.old result }
    {
        // A match: tried with `map_err`, the proofs of both clauses stayed open, as what its closure answered has no name there.
        let table = match accept(alloc, bytes, sheet) {
            Ok(table) => table,
            Err(stop) => return Err(stop.made_by(Layer::Table)),
        };
        let counts = table.counts();
        *self = table;
        Ok(counts)
    }

    /// The bytes of the table.
    pub fn bytes(&self) -> &[u8]
        ensures { result.now ≡ bytes_of self.now }
    {
        &self.bytes
    }

    /// How many records of each kind it has, and how many slots its rings take.
    pub fn counts(&self) -> Counts
        ensures { result ≡ (plan_of self.now).counts }
    {
        self.plan.counts
    }

    /// Its channels by number.
    pub fn channels(&self) -> &[Channel]
        ensures { result.now ≡ channels_of self.now }
    {
        &self.content.channels
    }

    /// Its streams by number.
    pub fn streams(&self) -> &[Stream]
        ensures { result.now ≡ streams_of self.now }
    {
        &self.content.streams
    }

    /// Its rules by number.
    pub fn rules(&self) -> &[Rule]
        ensures { result.now ≡ rules_of self.now }
    {
        &self.content.rules
    }

    /// The streams' numbers, in an order of evaluation.
    pub fn order(&self) -> &[usize]
        ensures { result.now ≡ (items (plan_of self.now).order) }
    {
        self.plan.order.as_slice()
    }

    /// The greatest lead of its streams, 0 where it has none.
    pub fn greatest_lead(&self) -> u32
        ensures { result ≡ greatest_lead_in (streams_of self.now) }
    {
        self.content.greatest_lead
    }
}
