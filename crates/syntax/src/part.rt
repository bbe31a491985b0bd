// The parts of which a record has several, one after another.
ghost use Rattle.std.specs.Prelude.{ℕ, List};
ghost use Rattle.syntax.specs.Answers.{Found};
ghost use Rattle.syntax.specs.Parts.{value_from};
ghost use Rattle.syntax.specs.Parsing.{parse};
ghost use Rattle.syntax.specs.Readers.{Reads};
ghost use Rattle.syntax.specs.Trees.{Exp, exp};
ghost use Rattle.values.specs.declared.value.Value.{Value};

use crate::reader::Reader;
use crate::tree::Expr;
use faults::stop::Stop;
use std::alloc::Global;
use values::types::Type;
use values::value::Value;

// What is read by itself, once it is known of what type or how deep.
pub(crate) trait Part: Sized + Drop {
    type Known: Copy;

    // what definitions make of it
    ghost Seen: { Type 0 };

    ghost see: { Self → Seen };

    // what stands at a place
    ghost found: { Self.Known → List ℕ → ℕ → Found Seen };

    fn read(reader: &mut Reader<'_>, alloc: Global, known: Self::Known) -> Result<Self, Stop>
        ensures { Reads see reader.old reader.new result (found known reader.old.bytes.now reader.old.at) };
}

impl Part for Value {
    type Known = Type;

    ghost Seen = { Value };

    ghost see = { λ v. v };

    ghost found = { λ ty bytes. value_from bytes ty };

    fn read(reader: &mut Reader<'_>, _alloc: Global, ty: Type) -> Result<Value, Stop> {
        Ok(reader.read_value(ty)?)
    }
}

impl Part for Expr {
    type Known = u8;

    ghost Seen = { Exp };

    ghost see = { exp };

    ghost found = { parse };

    fn read(reader: &mut Reader<'_>, alloc: Global, depth: u8) -> Result<Expr, Stop> {
        reader.read_expression(alloc, depth)
    }
}
