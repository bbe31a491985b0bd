// What the rings hold, as a source of samples and values.
ghost use Rattle.std.specs.Prelude.{◌^◌, ◌<◌};
ghost use Rattle.engine.specs.Rings.{HasRoom, samples_read, values_read};

use crate::ring::slot;
use evaluation::source::Source;
use tables::table::Table;
use values::value::Value;

// The rings of a table, read at a place.
#[derive(Drop)]
pub(crate) struct Reader<'t, 'r> {
    pub(crate) table: &'t Table,
    pub(crate) rings: &'r [u64],
    pub(crate) at: usize,
    pub(crate) ghost room: { HasRoom table.now rings.now },
    pub(crate) ghost near: { at < 2 ^ 40 },
}

impl<'t, 'r> Source for Reader<'t, 'r> {
    ghost samples = { λ r. samples_read r.table.now r.rings.now };

    ghost values = { λ r. values_read r.table.now r.rings.now };

    ghost place = { λ r. r.at };

    fn channel(&self, number: u8) -> Value {
        let Some(channel) = self.table.channels().get(usize::from(number)) else {
            return Value::Bool(false);
        };
        let slot = slot(&channel.ring, self.at);
        channel.ty.from_word(self.rings[slot])
    }

    fn stream(&self, number: u8, drop: u8) -> Value {
        let Some(stream) = self.table.streams().get(usize::from(number)) else {
            return Value::Bool(false);
        };
        let slot = slot(&stream.ring, self.at + usize::from(drop));
        stream.ty.from_word(self.rings[slot])
    }
}
