// Values as bytes, big-endian.
ghost use Rattle.std.specs.Prelude.{◌≡◌};
ghost use Rattle.values.specs.Bytes.{decoded, Decodes};

use crate::types::Type;
use crate::value::Value;
use byteorder::{BigEndian, ByteOrder};

impl Type {
    // The value that the bytes write; none where they are too few or too many, or a Bool other than 00 and 01.
    pub fn decode(self, bytes: &[u8]) -> Option<Value>
        ensures value { result ≡ decoded self bytes.now }
        ensures law { Decodes self bytes.now result }
    {
        if bytes.len() != self.size() {
            return None;
        }
        let word = BigEndian::read_uint(bytes, bytes.len());
        if self == Type::Bool && word > 1 {
            return None;
        }
        Some(self.from_word(word))
    }
}
