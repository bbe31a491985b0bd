// Reading the small parts of a table or a trace.
ghost use Rattle.std.specs.Prelude.{◌≡◌, ◌+◌, ◌≤◌, length, Ok, IfOk, slice_index};
ghost use Rattle.faults.specs.Causes.{refusal, by_number};
ghost use Rattle.faults.specs.declared.cause.Cause.TheVariants.{Malformed};
ghost use Rattle.syntax.specs.Parts.{within, byte_from, value_from, type_from, span, lower_first};
ghost use Rattle.syntax.specs.Readers.{Finds};

use crate::reader::Reader;
use faults::cause::Cause;
use values::types::Type;
use values::value::Value;

impl<'a> Reader<'a> {
    /// A reader of its own at the same place, with which to read ahead.
    pub fn fork(&self) -> Reader<'a>
        ensures bytes { result.bytes.now ≡ self.now.bytes.now }
        ensures at { result.at ≡ self.now.at }
    {
        Reader {
            bytes: self.bytes,
            at: self.at,
        }
    }

    // A byte is missing, which is refused at the end.
    fn missing(&self) -> Cause
        ensures { result ≡ Malformed (length self.now.bytes.now) }
    {
        Cause::Malformed(self.bytes.len())
    }

    // The byte that comes next.
    pub(crate) fn peek(&self) -> Result<u8, Cause>
        ensures { by_number result
            ≡ within self.now.bytes.now self.now.at (Ok (slice_index self.now.bytes.now self.now.at)) }
    {
        self.bytes.get(self.at).copied().ok_or(self.missing())
    }

    /// Reads the next byte. A missing one is refused at the end, and the reader stays where it is.
    pub fn byte(&mut self) -> Result<u8, Cause>
        ensures { Finds (λ b. b) self.old self.new result (byte_from self.old.bytes.now self.old.at) }
    {
        let byte = self.peek()?;
        self.at += 1;
        Ok(byte)
    }

    /// Reads the type whose code comes next. Where none does, the reader stays where it is.
    pub fn read_type(&mut self) -> Result<Type, Cause>
        ensures { Finds (λ t. t) self.old self.new result (type_from self.old.bytes.now self.old.at) }
    {
        let at = self.at;
        let ty = Type::try_from(self.peek()?).map_err(|_| Cause::Malformed(at))?;
        self.at = at + 1;
        Ok(ty)
    }

    /// Reads the value of a type that comes next. Where none does, the reader stays where it is.
    pub fn read_value(&mut self, ty: Type) -> Result<Value, Cause>
        ensures { Finds (λ v. v) self.old self.new result (value_from self.old.bytes.now ty self.old.at) }
    {
        let at = self.at;
        let next = at + ty.size();
        if next > self.bytes.len() {
            return Err(self.missing());
        }
        let value = ty
            .decode(&self.bytes[at..next])
            .ok_or(Cause::Malformed(at))?;
        self.at = next;
        Ok(value)
    }

    /// The place after the record or row that comes next, which begins with its length in two bytes.
    pub fn span(&self) -> Result<usize, Cause>
        ensures value { by_number result ≡ span self.now.bytes.now self.now.at }
        ensures inside { IfOk result (λ end. (self.now.at + 2 ≤ end) × (end ≤ length self.now.bytes.now)) }
    {
        let at = self.at;
        let bytes = self.bytes;
        if at + 1 >= bytes.len() {
            return Err(Cause::Ended(at));
        }
        let length = u16::from_be_bytes([bytes[at], bytes[at + 1]]);
        let end = at + 2 + usize::from(length);
        if end > bytes.len() {
            return Err(Cause::Ended(at));
        }
        Ok(end)
    }

    /// The cause to tell of a record or row that ends at `end` and is refused for `cause`. Where a
    /// byte is missing at `end`, and what begins there runs past the end of the bytes, both are
    /// refused at this byte, and the latter, which has the lower number, is told.
    pub fn lower_first(&self, end: usize, cause: Cause) -> Cause
        ensures { refusal result ≡ lower_first self.now.bytes.now end (refusal cause) }
    {
        if cause.place() != end || end >= self.bytes.len() {
            return cause;
        }
        let next = Reader {
            bytes: self.bytes,
            at: end,
        };
        next.span().err().unwrap_or(cause)
    }
}
