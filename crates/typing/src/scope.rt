// The types of a table's channels and streams.
ghost use Rattle.std.specs.Prelude.{◌≡◌, ◌<◌, ◌+◌, [], ◌∷◌, map, MatchResult, slice_index_or};
ghost use Rattle.values.specs.declared.types.«Type».TheVariants as type;
ghost use Rattle.syntax.specs.declared.record.Kind.TheVariants.{Channel, Stream};
ghost use Rattle.syntax.specs.Entries.{entry_of, count};
ghost use Rattle.typing.specs.Scopes.{Adds, ScopeOf};

use std::alloc::{AllocError, Global};
use syntax::record::Record;
use values::types::Type;

// The types of the channels and of the streams, by number. With a model, clauses would name the same two lists.
#[derive(Drop)]
pub(crate) struct Scope {
    channels: Vec<Type>,
    streams: Vec<Type>,
}

// The type at a number; Bool where there is none, as the definition has it: typing asks nothing of an expression, and the check looks at names before.
fn type_at(types: &[Type], number: u8) -> Type
    ensures { result ≡ slice_index_or types.now number type.Bool }
{
    types
        .get(usize::from(number))
        .copied()
        .unwrap_or(Type::Bool)
}

impl Scope {
    // Adds the type of a record that is a channel or a stream.
    fn add(&mut self, r: &Record) -> Result<(), AllocError>
        ensures { let e = entry_of r.now in
            let declared = count Channel (e ∷ []) + count Stream (e ∷ []) in
            MatchResult result (λ _. Adds self.old e self.new) (λ _. 0 < declared) }
    {
        match r {
            Record::Channel(ty) => self.channels.push(*ty)?,
            Record::Stream(stream) => self.streams.push(stream.ty)?,
            Record::Rule(_) => {}
        }
        Ok(())
    }

    // The scope of a table.
    pub(crate) fn new(alloc: Global, records: &[Record]) -> Result<Scope, AllocError>
        ensures { let rs = map entry_of records.now in
            MatchResult result (λ s. ScopeOf s rs) (λ _. 0 < count Channel rs + count Stream rs) }
    {
        let mut scope = Scope {
            channels: Vec::new(alloc),
            streams: Vec::new(alloc),
        };
        for r in records {
            scope.add(r)?;
        }
        Ok(scope)
    }

    // The type of a channel.
    pub(crate) fn channel(&self, number: u8) -> Type
        ensures { result ≡ slice_index_or self.now.channels.items number type.Bool }
    {
        type_at(&self.channels, number)
    }

    // The type of a stream.
    pub(crate) fn stream(&self, number: u8) -> Type
        ensures { result ≡ slice_index_or self.now.streams.items number type.Bool }
    {
        type_at(&self.streams, number)
    }
}
