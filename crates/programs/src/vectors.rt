// Many tables on standard input, one a line in hexadecimal.
ghost use Rattle.std.specs.Prelude.{◌≡◌, Ok, IfOk, IfSome, vec_items};
ghost use Rattle.std.specs.Io.KnownBytes.{Appends};
ghost use Rattle.std.specs.List.{AllZip, filter_map};
ghost use Rattle.std.specs.Option.{option_map};
ghost use Rattle.programs.specs.Telling.{table_of, TellsBy, Split, text_of, Answers, written};

use crate::output::write_line;
use hexadecimal::parse_hex;
use std::alloc::{AllocError, Global};
use std::io::{BufRead, Write};

// The bytes of a table that a line writes: `-` for none, else hexadecimal.
pub fn table_bytes(alloc: Global, text: &str) -> Result<Option<Vec<u8>>, AllocError>
    ensures { IfOk result (λ o. option_map vec_items o ≡ table_of text.now) }
{
    if text == "-" {
        return Ok(Some(Vec::new(alloc)));
    }
    parse_hex(alloc, text.as_bytes())
}

// What is told of a line: what `judge` says of its bytes, or that it writes none.
pub fn tell_line<F: Fn(&[u8]) -> Result<String, AllocError>>(
    alloc: Global,
    text: &str,
    judge: F,
) -> Result<String, AllocError>
    requires { F.IsAlwaysCallable judge }
    ensures { IfOk result (λ told. TellsBy F.Fn judge (table_of text.now) told) }
{
    match table_bytes(alloc, text)? {
        Some(bytes) => judge(&bytes),
        None => String::from_str(alloc, "not hexadecimal"),
    }
}

// The text of a line that counts: a blank one does not, nor one that begins with `#`.
fn line_text(line: &str) -> Option<&str>
    ensures { option_map (λ s. s.now) result ≡ text_of line.now }
{
    let text = line.trim();
    if text.is_empty() || text.starts_with('#') {
        return None;
    }
    Some(text)
}

// Writes what `tell` says of each line that counts, before it reads the next.
pub fn tell_lines<R: BufRead + Drop, W: Write, F: Fn(Global, &str) -> Result<String, AllocError>>(
    alloc: Global,
    input: R,
    output: &mut W,
    tell: F,
) -> anyhow::Result<()>
    requires { F.IsAlwaysCallable tell }
    ensures { IfOk result (λ _. (lines : _) × (told : _)
        × IfSome (R.remaining input) (λ xs. Split xs lines)
        × AllZip (Answers F.Fn tell alloc) (filter_map text_of lines) told
        × Appends (W.contents output.old) (W.contents output.new) (written told)) }
{
    for line in input.lines(alloc) {
        let line = line?;
        let Some(text) = line_text(&line) else {
            continue;
        };
        write_line(output, &tell(alloc, text)?)?;
    }
    Ok(())
}
