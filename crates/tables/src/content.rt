// The channels, streams and rules of a table by number.
ghost use Rattle.std.specs.Prelude.{IfOk};
ghost use Rattle.syntax.specs.Entries.{entries_of};
ghost use Rattle.schedule.specs.Plans.{Planned};

use schedule::plan::{Plan, Ring};
use std::alloc::{AllocError, Global};
use syntax::record::{self, Record, Rule};
use syntax::tree::Expr;
use values::types::Type;
use values::value::Value;

/// A channel of an accepted table: its type, and where its samples lie.
#[derive(Clone, Copy, Debug, PartialEq, Eq)]
pub struct Channel {
    pub ty: Type,
    pub ring: Ring,
}

/// A stream of an accepted table: its type, its opening values and body, and where its values lie.
#[derive(Drop)]
pub struct Stream {
    pub ty: Type,
    pub opening: Vec<Value>,
    pub body: Expr,
    pub ring: Ring,
}

// What a tick needs of a table beside its plan: its channels, streams and rules by number, with each ring beside its channel or stream.
#[derive(Drop)]
pub(crate) struct Content {
    pub(crate) channels: Vec<Channel>,
    pub(crate) streams: Vec<Stream>,
    pub(crate) rules: Vec<Rule>,
    pub(crate) greatest_lead: u32,
}

impl Content {
    ghost use Rattle.tables.specs.Contents.{Sorts};

    // The content of records, by a plan of them.
    pub(crate) fn new(
        alloc: Global,
        records: Vec<Record>,
        plan: &Plan,
    ) -> Result<Content, AllocError>
        requires { Planned (entries_of records) plan.now }
        ensures { IfOk result (Sorts (entries_of records) plan.now) }
    {
        let counts = plan.counts;
        let rings = plan.rings.as_slice();
        let mut channels = Vec::with_capacity(alloc, counts.records.channels)?;
        let mut streams = Vec::with_capacity(alloc, counts.records.streams)?;
        let mut rules = Vec::with_capacity(alloc, counts.records.rules)?;
        let mut greatest_lead = 0;
        for record in records {
            match record {
                Record::Channel(ty) => {
                    let ring = rings[channels.len()];
                    channels.push(Channel { ty, ring })?;
                }
                Record::Stream(record::Stream { ty, opening, body }) => {
                    let ring = rings[counts.records.channels + streams.len()];
                    greatest_lead = greatest_lead.max(ring.lead);
                    streams.push(Stream {
                        ty,
                        opening,
                        body,
                        ring,
                    })?;
                }
                Record::Rule(rule) => rules.push(rule)?,
            }
        }
        Ok(Content {
            channels,
            streams,
            rules,
            greatest_lead,
        })
    }
}
