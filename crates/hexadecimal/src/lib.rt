// Text in hexadecimal as bytes.
#![tactic(auto)]

ghost use Rattle.std.specs.Prelude.{◌≡◌, IfOk, OnErr, vec_items};
ghost use Rattle.std.specs.Option.{option_map};
ghost use Rattle.hexadecimal.specs.Hexadecimal.{BeginsWithByte, bytes_of};

use hex::FromHex;
use std::alloc::{AllocError, Global};

/// The bytes that the text writes, two digits each; none where a digit is missing or is no digit.
/// It errs for want of memory alone, of which none is asked for before a pair of digits is read.
pub fn parse_hex(alloc: Global, text: &[u8]) -> Result<Option<Vec<u8>>, AllocError>
    ensures read { IfOk result (λ o. option_map vec_items o ≡ bytes_of text.now) }
    ensures memory { OnErr result (BeginsWithByte text.now) }
{
    let (pairs, []) = text.as_chunks::<2>() else {
        return Ok(None);
    };
    let mut bytes = Vec::new(alloc);
    for pair in pairs {
        let Ok(byte) = <[u8; 1]>::from_hex(pair) else {
            return Ok(None);
        };
        bytes.push(byte[0])?;
    }
    Ok(Some(bytes))
}
