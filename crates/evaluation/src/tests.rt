// The bodies of two worked tables, each taken at three places, against values that were worked out by hand.
ghost use Rattle.std.specs.Prelude.{◌≡◌, [], slice_index_or};
ghost use Rattle.values.specs.declared.value.Value.TheVariants.{Word64};

use crate::evaluate::evaluate;
use crate::source::Source;
use std::test::Fail;
use syntax::record::Record;
use syntax::table::read_table;
use values::value::Value;

// m3 = [0, 1, 2] ++ m2 and m2 = drop 1 m3, in Word64.
const TWO_STREAMS: [u8; 41] = [
    0x01, 0x00, 0x1e, 0x02, 0x05, 0x03, 0, 0, 0, 0, 0, 0, 0, 0, 0, 0, 0, 0, 0, 0, 0, 1, 0, 0, 0, 0,
    0, 0, 0, 2, 0x03, 0x01, 0x00, 0x00, 0x06, 0x02, 0x05, 0x00, 0x03, 0x00, 0x01,
];

// m0 = [0, 1, 2] ++ (channel 0 + 3), m1 = m0 + m0 and m2 = drop 2 m1, in Word64.
const THREE_STREAMS: [u8; 67] = [
    0x01, 0x00, 0x02, 0x01, 0x05, 0x00, 0x28, 0x02, 0x05, 0x03, 0, 0, 0, 0, 0, 0, 0, 0, 0, 0, 0, 0,
    0, 0, 0, 1, 0, 0, 0, 0, 0, 0, 0, 2, 0x30, 0x02, 0x00, 0x01, 0x05, 0, 0, 0, 0, 0, 0, 0, 3, 0x00,
    0x0a, 0x02, 0x05, 0x00, 0x30, 0x03, 0x00, 0x00, 0x03, 0x00, 0x00, 0x00, 0x06, 0x02, 0x05, 0x00,
    0x03, 0x01, 0x02,
];

// Samples of channel 0 by tick and values by stream and index, in Word64 and 0 past the end, read at a place.
#[derive(Clone, Copy)]
struct Worked {
    samples: [u64; 3],
    values: [[u64; 6]; 3],
    place: u8,
}

// The number at an index, 0 past the end.
fn at(row: &[u64], index: usize) -> Value
    ensures { result ≡ Word64 (slice_index_or row.now index 0) }
{
    Value::Word64(row.get(index).copied().unwrap_or(0))
}

impl Source for Worked {
    ghost samples = { λ worked tick channel. Word64 (slice_index_or worked.samples tick 0) };

    ghost values = { λ worked stream index. Word64 (slice_index_or (slice_index_or worked.values stream []) index 0) };

    ghost place = { λ worked. worked.place };

    fn channel(&self, _number: u8) -> Value {
        at(&self.samples, usize::from(self.place))
    }

    fn stream(&self, number: u8, drop: u8) -> Value {
        let Worked { values, place, .. } = *self;
        match values.get(usize::from(number)) {
            Some(row) => at(row, usize::from(place) + usize::from(drop)),
            None => Value::Word64(0),
        }
    }
}

#[test]
fn values_of_worked_tables(rt: HostRuntime) -> Result<(), Fail> {
    let tables = [
        (
            &TWO_STREAMS[..],
            [0u64; 3],
            [[0, 1, 2, 1, 2, 1], [1, 2, 1, 2, 1, 2], [0; 6]],
        ),
        (
            &THREE_STREAMS[..],
            [10, 20, 30],
            [
                [0, 1, 2, 13, 23, 33],
                [0, 2, 4, 26, 46, 66],
                [4, 26, 46, 66, 0, 0],
            ],
        ),
    ];
    for (bytes, samples, values) in tables {
        let Ok(records) = read_table(rt.alloc(), bytes) else {
            return Err(Fail::new("refused"));
        };
        let mut worked = Worked {
            samples,
            values,
            place: 0,
        };
        let mut number = 0usize;
        for record in &records {
            if let (Record::Stream(stream), Some(row)) = (record, values.get(number)) {
                for place in 0..3u8 {
                    worked.place = place;
                    let index = stream.opening.len() + usize::from(place);
                    let value = evaluate(&stream.body, &worked);
                    assert_eq!(rt; value, at(row, index));
                }
                number += 1;
            }
        }
    }
    Ok(())
}
