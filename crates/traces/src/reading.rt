// Reading a trace's rows from its bytes.
ghost use Rattle.std.specs.Prelude.{◌≡◌, ◌<◌, length, OnOk};
ghost use Rattle.syntax.specs.Readers.{Finds};
ghost use Rattle.traces.specs.Reading.{cell_from, cells, row_from, rows};
ghost use Rattle.traces.specs.Rows.{Counts, FindsRow, Reads};

use faults::cause::Cause;
use sampling::row::{CHANNELS, Row};
use syntax::reader::Reader;
use values::types::Type;
use values::value::Value;

// The code that stands for nothing at a channel.
const NOTHING: u8 = 0;

// What one channel reads: a type's code and a value, or the code for nothing.
fn read_cell(reader: &mut Reader<'_>) -> Result<Option<Value>, Cause>
    ensures { Finds (λ o. o) reader.old reader.new result (cell_from reader.old.bytes.now reader.old.at) }
{
    let at = reader.at;
    let mut ahead = reader.fork();
    let code = ahead.byte()?;
    if code == NOTHING {
        reader.at = ahead.at;
        return Ok(None);
    }
    let ty = Type::try_from(code).map_err(|_| Cause::Malformed(at))?;
    let value = ahead.read_value(ty)?;
    reader.at = ahead.at;
    Ok(Some(value))
}

// The channels from 0 upward, to the row's end; a byte after the sixteenth is refused. The reader is the row's own, and stays where it stopped.
fn read_cells(reader: &mut Reader<'_>) -> Result<Row, Cause>
    ensures { Reads result (cells 16 reader.old.bytes.now reader.old.at) }
{
    let mut row = Row::empty();
    for channel in 0..CHANNELS {
        if reader.at >= reader.bytes.len() {
            return Ok(row);
        }
        row.put(channel, read_cell(reader)?);
    }
    if reader.at < reader.bytes.len() {
        return Err(Cause::Malformed(reader.at));
    }
    Ok(row)
}

// The row that comes next.
pub(crate) fn read_row(reader: &mut Reader<'_>) -> Result<Row, Cause>
    ensures value { FindsRow reader.old reader.new result (row_from reader.old.bytes.now reader.old.at) }
    ensures onward { OnOk result (reader.old.at < reader.new.at) }
{
    let end = reader.span()?;
    let mut inner = Reader {
        bytes: &reader.bytes[..end],
        at: reader.at + 2,
    };
    let row = match read_cells(&mut inner) {
        Ok(row) => row,
        Err(cause) => return Err(reader.lower_first(end, cause)),
    };
    reader.at = end;
    Ok(row)
}

// How many rows come, to the end. The reader stays where it stopped.
pub(crate) fn count_rows(reader: &mut Reader<'_>) -> Result<usize, Cause>
    ensures { Counts result (rows (length reader.old.bytes.now) reader.old.bytes.now reader.old.at) }
{
    let mut count = 0;
    while reader.at < reader.bytes.len() {
        read_row(reader)?;
        count += 1;
    }
    Ok(count)
}
