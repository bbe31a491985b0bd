// A table on standard input, as raw bytes.
ghost use Rattle.std.specs.Prelude.{◌≡◌, ◌≤◌, [], ◌∷◌, length, take, IfOk, IfSome};
ghost use Rattle.std.specs.Io.KnownBytes.{Appends};
ghost use Rattle.programs.specs.Telling.{Answers, written};

use crate::output::write_line;
use anyhow::Context;
use std::alloc::{AllocError, Global};
use std::io::{Read, Write};

// One byte more than a table may have, so that a longer input is seen to be one.
const MOST: usize = 8193;

// The bytes that standard input gives, read by `input`, at most so many.
pub fn read_at_most<R: Read + Drop>(alloc: Global, input: R, most: usize) -> anyhow::Result<Vec<u8>>
    ensures size { IfOk result (λ bytes. length bytes.items ≤ most) }
    ensures front { IfOk result (λ bytes. IfSome (R.remaining input) (λ xs. bytes.items ≡ take most xs)) }
{
    // Room for one byte more, so that the read that finds the end asks for no memory.
    let mut bytes = Vec::with_capacity(alloc, most.saturating_add(1))?;
    input
        .take(most as u64)
        .read_to_end(&mut bytes)
        .context("standard input cannot be read")?;
    // There are no more, but the contract of `read_to_end` says so only where a reader's bytes are known.
    bytes.truncate(most);
    Ok(bytes)
}

// Writes what `tell` says of the first 8,193 bytes of the input, or of all where there are fewer.
pub fn tell_input<R: Read + Drop, W: Write, F: Fn(Global, &[u8]) -> Result<String, AllocError>>(
    alloc: Global,
    input: R,
    output: &mut W,
    tell: F,
) -> anyhow::Result<()>
    requires { F.IsAlwaysCallable tell }
    ensures { IfOk result (λ _. (bytes : _) × (told : _)
        × (length bytes ≤ 8193)
        × IfSome (R.remaining input) (λ xs. bytes ≡ take 8193 xs)
        × Answers F.Fn tell alloc bytes told
        × Appends (W.contents output.old) (W.contents output.new) (written (told ∷ []))) }
{
    let bytes = read_at_most(alloc, input, MOST)?;
    write_line(output, &tell(alloc, &bytes)?)?;
    Ok(())
}
