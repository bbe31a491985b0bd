// What a check leaves of the table and the sheet, and what streams show, on examples.
use crate::{TWO_STREAMS, one_stream, three_streams, worked_cases};
use std::test::Fail;
use tables::line::{BLANK_SHEET, ask};
use tables::rejection::Rejection;
use tables::table::Table;
use values::value::Value;
use walks::edge::SheetEntry;

// An entry that no walk fills.
const BLANK: SheetEntry = SheetEntry {
    reader: 99,
    read: 99,
    drop: 99,
};

#[test]
fn refuses_a_short_sheet(rt: HostRuntime) -> Result<(), Fail> {
    let mut table = Table::new(rt.alloc())?;
    let mut sheet = [BLANK; 32];
    match table.check(rt.alloc(), &TWO_STREAMS, &mut sheet) {
        Err(Rejection::Refused(fault)) => {
            assert_eq!(rt; (fault.number(), fault.place()), (10, 32));
            Ok(())
        },
        _ => Err(Fail::new("not refused")),
    }
}

#[test]
fn lists_the_walk_to_blame(rt: HostRuntime) -> Result<(), Fail> {
    let mut table = Table::new(rt.alloc())?;
    let mut sheet = [BLANK; 33];
    match table.check(rt.alloc(), &three_streams(4), &mut sheet) {
        Err(Rejection::Refused(fault)) => assert_eq!(rt; (fault.number(), fault.place()), (9, 3)),
        _ => return Err(Fail::new("not refused")),
    }
    assert_eq!(rt;
        sheet[0],
        SheetEntry {
            reader: 3,
            read: 2,
            drop: 4
        }
    );
    assert_eq!(rt;
        sheet[1],
        SheetEntry {
            reader: 2,
            read: 1,
            drop: 0
        }
    );
    assert_eq!(rt;
        sheet[2],
        SheetEntry {
            reader: 1,
            read: 0,
            drop: 0
        }
    );
    assert!(rt; sheet[3] == BLANK, "an entry past the walk");
    Ok(())
}

#[test]
fn asks_a_first_table(rt: HostRuntime) -> Result<(), Fail> {
    let outcome = ask(rt.alloc(), &TWO_STREAMS)?;
    assert!(rt; outcome.answer.is_ok());
    assert!(rt; outcome.sheet.as_slice() == BLANK_SHEET.as_slice());
    Ok(())
}

#[test]
fn keeps_what_it_accepted(rt: HostRuntime) -> Result<(), Fail> {
    let mut table = Table::new(rt.alloc())?;
    assert!(rt; table.bytes() == [1u8].as_slice());
    let mut sheet = [BLANK; 33];
    assert!(rt; table.check(rt.alloc(), &TWO_STREAMS, &mut sheet).is_ok());
    assert!(rt; sheet[0] == BLANK, "an acceptance keeps the sheet");
    assert!(rt; table.check(rt.alloc(), &one_stream(1), &mut sheet).is_err());
    assert!(rt;
        table.bytes() == TWO_STREAMS.as_slice(),
        "a refusal keeps the table"
    );
    Ok(())
}

#[test]
fn shows_m2_of_the_worked_tables(rt: HostRuntime) -> Result<(), Fail> {
    let cases = worked_cases(rt.alloc())?;
    for (index, value) in [1u8, 2, 1, 2].iter().enumerate() {
        assert_eq!(rt;
            cases.repeating[index],
            Some((index as u64, Value::Word8(*value)))
        );
    }
    assert_eq!(rt; cases.ahead[0], Some((0, Value::Word64(4))));
    assert_eq!(rt; cases.ahead[1], Some((1, Value::Word64(26))));
    Ok(())
}
