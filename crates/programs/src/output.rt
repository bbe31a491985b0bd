// How the programs write.
ghost use Rattle.std.specs.Prelude.{[], ◌∷◌, ◌++◌, OnOk};
ghost use Rattle.std.specs.Io.KnownBytes.{Appends};

use std::io;
use std::io::Write;

// A line of so many bytes, its break among them, goes out by one write.
const ROOM: usize = 1024;

// Writes a line and its break. The room for both is on the stack, so this asks for no memory; of a
// longer line its front goes out by a write before.
pub(crate) fn write_line<W: Write>(output: &mut W, line: &str) -> io::Result<()>
    ensures { OnOk result
        (Appends (W.contents output.old) (W.contents output.new) (line.now ++ (10 ∷ []))) }
{
    let bytes = line.as_bytes();
    let (front, back) = bytes.split_at(bytes.len().saturating_sub(ROOM - 1));
    output.write_all(front)?;
    let mut room = [b'\n'; ROOM];
    room[..back.len()].copy_from_slice(back);
    output.write_all(&room[..=back.len()])
}
