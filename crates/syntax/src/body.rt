// What follows a record's kind.
ghost use Rattle.std.specs.Prelude.{◌≡◌, map, length, IfOk};
ghost use Rattle.syntax.specs.Readers.{Finds, Reads};
ghost use Rattle.syntax.specs.Trees.{exp};
ghost use Rattle.syntax.specs.Entries.{entry_of};
ghost use Rattle.syntax.specs.Reading.{many, at_most, body, filled};
ghost use Rattle.syntax.specs.declared.record.Kind.TheVariants as kinds;

use crate::part::Part;
use crate::reader::Reader;
use crate::record::{Kind, Record, Rule, Stream};
use crate::tree::DEPTH;
use faults::cause::Cause;
use faults::stop::Stop;
use std::alloc::Global;

// How many opening values a stream has at most, and how many arguments a rule.
const MOST_OPENING: u8 = 64;

const MOST_ARGUMENTS: u8 = 4;

impl<'a> Reader<'a> {
    // So many parts, one after another.
    fn read_many<P: Part>(
        &mut self,
        alloc: Global,
        known: P::Known,
        count: u8,
    ) -> Result<Vec<P>, Stop>
        ensures { Reads (λ v. map P.see v.items) self.old self.new result (many (P.found known self.old.bytes.now) count self.old.at) }
    {
        let mut ahead = self.fork();
        let mut parts = Vec::new(alloc);
        for _ in 0..count {
            parts.push(P::read(&mut ahead, alloc, known)?)?;
        }
        self.at = ahead.at;
        Ok(parts)
    }

    // A count that comes next, at most `most`.
    fn read_count(&mut self, most: u8) -> Result<u8, Cause>
        ensures { Finds (λ n. n) self.old self.new result (at_most most self.old.bytes.now self.old.at) }
    {
        let at = self.at;
        let count = self.peek()?;
        if count > most {
            return Err(Cause::Limit(at));
        }
        self.at = at + 1;
        Ok(count)
    }

    // A stream: its type, its opening values behind their count, and its body.
    fn read_stream(&mut self, alloc: Global) -> Result<Record, Stop>
        ensures { Reads entry_of self.old self.new result (body kinds.Stream self.old.bytes.now self.old.at) }
    {
        let mut ahead = self.fork();
        let ty = ahead.read_type()?;
        let count = ahead.read_count(MOST_OPENING)?;
        let opening = ahead.read_many(alloc, ty, count)?;
        let body = ahead.read_expression(alloc, DEPTH)?;
        self.at = ahead.at;
        Ok(Record::Stream(Stream { ty, opening, body }))
    }

    // A rule: the count of its arguments, its guard, and the arguments.
    fn read_rule(&mut self, alloc: Global) -> Result<Record, Stop>
        ensures { Reads entry_of self.old self.new result (body kinds.Rule self.old.bytes.now self.old.at) }
    {
        let mut ahead = self.fork();
        let count = ahead.read_count(MOST_ARGUMENTS)?;
        let guard = ahead.read_expression(alloc, DEPTH)?;
        let arguments = ahead.read_many(alloc, DEPTH, count)?;
        self.at = ahead.at;
        Ok(Record::Rule(Rule { guard, arguments }))
    }

    // What follows a record's kind.
    fn read_body(&mut self, alloc: Global, kind: Kind) -> Result<Record, Stop>
        ensures { Reads entry_of self.old self.new result (body kind self.old.bytes.now self.old.at) }
    {
        match kind {
            Kind::Channel => Ok(Record::Channel(self.read_type()?)),
            Kind::Stream => self.read_stream(alloc),
            Kind::Rule => self.read_rule(alloc),
        }
    }

    // The same to the record's end; a byte that is left over is refused.
    pub(crate) fn read_filled(&mut self, alloc: Global, kind: Kind) -> Result<Record, Stop>
        ensures value { Reads entry_of self.old self.new result (filled kind self.old.bytes.now self.old.at) }
        ensures end { IfOk result (λ _. self.new.at ≡ length self.old.bytes.now) }
    {
        let mut ahead = self.fork();
        let record = ahead.read_body(alloc, kind)?;
        if ahead.at != ahead.bytes.len() {
            return Err(Stop::Refused(Cause::Malformed(ahead.at)));
        }
        self.at = ahead.at;
        Ok(record)
    }
}
