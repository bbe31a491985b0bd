// A table, from bytes.
ghost use Rattle.std.specs.Prelude.{◌≡◌, ◌+◌, ◌<◌, ◌≤◌, [], map, length, IfOk, OnOk};
ghost use Rattle.faults.specs.Causes.{by_number};
ghost use Rattle.syntax.specs.Entries.{entry_of};
ghost use Rattle.syntax.specs.Readers.{Reads};
ghost use Rattle.syntax.specs.Reading.{frame, entry_from, entries, read_table, Yields, Begun};
ghost use Rattle.syntax.specs.Refusing.{RefusesAlike};
ghost use Rattle.syntax.specs.Written.{AcceptsWritten};

use crate::reader::Reader;
use crate::record::{Kind, Record, count};
use faults::cause::Cause;
use faults::stop::Stop;
use std::alloc::Global;

// The version of the format, the first byte of a table.
const VERSION: u8 = 1;

// How many bytes a table has at most.
const MOST_BYTES: usize = 8192;

impl<'a> Reader<'a> {
    // The kind of the record that comes next, and the place after the record.
    fn frame(&self) -> Result<(Kind, usize), Cause>
        requires { self.now.at < length self.now.bytes.now }
        ensures value { by_number result ≡ frame self.now.bytes.now self.now.at }
        ensures inside { IfOk result (λ p. (self.now.at + 2 < p.1) × (p.1 ≤ length self.now.bytes.now)) }
    {
        let at = self.at;
        let end = self.span()?;
        if end <= at + 2 {
            return Err(Cause::Malformed(at));
        }
        let kind = Kind::try_from(self.bytes[at + 2]).map_err(|_| Cause::Malformed(at + 2))?;
        Ok((kind, end))
    }

    // The record that comes next, after those before it.
    fn read_record(&mut self, alloc: Global, before: &[Record]) -> Result<Record, Stop>
        requires { self.old.at < length self.old.bytes.now }
        ensures value { Reads entry_of self.old self.new result (entry_from (map entry_of before.now) self.old.bytes.now self.old.at) }
        ensures onward { OnOk result (self.old.at < self.new.at) }
    {
        let (kind, end) = self.frame()?;
        if count(before, kind) >= kind.limit() {
            return Err(Stop::Refused(Cause::Limit(self.at + 2)));
        }
        let mut inner = Reader {
            bytes: &self.bytes[..end],
            at: self.at + 3,
        };
        let record = match inner.read_filled(alloc, kind) {
            Ok(record) => record,
            Err(Stop::Refused(cause)) => return Err(Stop::Refused(self.lower_first(end, cause))),
            Err(Stop::Memory) => return Err(Stop::Memory),
        };
        self.at = end;
        Ok(record)
    }

    // All records that come.
    fn read_records(&mut self, alloc: Global) -> Result<Vec<Record>, Stop>
        ensures { Yields (self.old.at < length self.old.bytes.now) result (entries (length self.old.bytes.now) [] self.old.bytes.now self.old.at) }
    {
        let mut records = Vec::new(alloc);
        // A record's own length says where the next one begins.
        while self.at < self.bytes.len() {
            let record = self.read_record(alloc, &records)?;
            records.push(record)?;
        }
        Ok(records)
    }
}

/// The records of a table, or why the bytes are none.
pub fn read_table(alloc: Global, bytes: &[u8]) -> Result<Vec<Record>, Stop>
    ensures answer { Yields (Begun bytes.now) result (read_table bytes.now) }
    ensures law { AcceptsWritten bytes.now }
    ensures refusals { RefusesAlike bytes.now }
{
    if bytes.is_empty() || bytes[0] != VERSION {
        return Err(Stop::Refused(Cause::Version));
    }
    if bytes.len() > MOST_BYTES {
        return Err(Stop::Refused(Cause::Limit(MOST_BYTES)));
    }
    Reader { bytes, at: 1 }.read_records(alloc)
}
