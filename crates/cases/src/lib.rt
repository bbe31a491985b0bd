// Worked cases: small tables, what the check answers of them and what two of them show, a hold over a few rows, and operators at the ends of ranges; with proofs.
#![tactic(auto)]

ghost use Rattle.std.specs.Prelude.{◌≡◌, IfOk};
ghost use Rattle.cases.specs.Cases.{three_streams, one_stream, TwoStreams, TwoAhead, ThreeAhead, FourAhead, OneAhead, NoneAhead, Says, Verdict, AsWorked};

mod bridging;
mod showing;

use crate::bridging::bridge_five;
use crate::showing::{show_three, show_two};
use faults::cause::Cause;
use operators::edges::{EdgeCases, edge_cases};
use schedule::plan::Counts;
use std::alloc::{AllocError, Global};
use tables::line::ask;
use tables::rejection::Rejection;
use values::value::Value;

// Stream 0 is m3 = [0, 1, 2] ++ m2, and stream 1 is m2 = drop 1 m3, in Word8.
const TWO_STREAMS: [u8; 20] = [
    0x01, 0x00, 0x09, 0x02, 0x02, 0x03, 0x00, 0x01, 0x02, 0x03, 0x01, 0x00, 0x00, 0x06, 0x02, 0x02,
    0x00, 0x03, 0x00, 0x01,
];

// m0 = [0, 1, 2] ++ (channel 0 + 3), m1 = m0 + m0 and m2 = drop 0 m1, in Word64.
const THREE_STREAMS: [u8; 67] = [
    0x01, 0x00, 0x02, 0x01, 0x05, 0x00, 0x28, 0x02, 0x05, 0x03, 0, 0, 0, 0, 0, 0, 0, 0, 0, 0, 0, 0,
    0, 0, 0, 1, 0, 0, 0, 0, 0, 0, 0, 2, 0x30, 0x02, 0x00, 0x01, 0x05, 0, 0, 0, 0, 0, 0, 0, 3, 0x00,
    0x0a, 0x02, 0x05, 0x00, 0x30, 0x03, 0x00, 0x00, 0x03, 0x00, 0x00, 0x00, 0x06, 0x02, 0x05, 0x00,
    0x03, 0x01, 0x00,
];

// The same with drop d, which is the last byte.
fn three_streams(d: u8) -> [u8; 67]
    ensures { result ≡ three_streams d }
{
    let mut bytes = THREE_STREAMS;
    bytes[66] = d;
    bytes
}

// s = [1] ++ drop d s, in Word8.
fn one_stream(d: u8) -> [u8; 10]
    ensures { result ≡ one_stream d }
{
    [0x01, 0x00, 0x07, 0x02, 0x02, 0x01, 0x01, 0x03, 0x00, d]
}

// The slots of an acceptance, or the cause of a refusal.
fn verdict(answer: Result<Counts, Rejection>) -> Result<Result<usize, Cause>, AllocError>
    ensures { IfOk result (λ v. Says answer v) }
{
    match answer {
        Ok(counts) => Ok(Ok(counts.slots)),
        Err(rejection) => Ok(Err(rejection.refused()?.cause)),
    }
}

// The slots of an accepted table, or why the bytes are refused.
fn judge(alloc: Global, bytes: &[u8]) -> Result<Result<usize, Cause>, AllocError>
    ensures { IfOk result (λ v. Verdict bytes.now v) }
{
    verdict(ask(alloc, bytes)?.answer)
}

// What the worked cases come to.
#[derive(Clone, Copy)]
pub struct WorkedCases {
    // What the check answers of the two streams that read each other.
    pub two: Result<usize, Cause>,
    // Of the three streams, with drop 3.
    pub three: Result<usize, Cause>,
    // Of the three streams, with drop 4.
    pub four: Result<usize, Cause>,
    // Of the stream that reads itself, with drop 1.
    pub one: Result<usize, Cause>,
    // Of the stream that reads itself, with drop 0.
    pub none: Result<usize, Cause>,
    // What m2 of the two streams has at indexes 0 to 3: its newest index and value after each tick.
    pub repeating: [Option<(u64, Value)>; 4],
    // What m2 of the three streams, with drop 2, has at indexes 0 and 1, where the samples are 10 and 20.
    pub ahead: [Option<(u64, Value)>; 2],
    // What a hold that bridges two latches shows of 5 and three latches with nothing.
    pub bridged: [Option<Value>; 4],
    // What operators make of operands at the ends of their ranges.
    pub edges: EdgeCases,
}

// Checks each of the worked tables, shows what two of them do, and works out the other cases.
fn work_out(alloc: Global) -> Result<WorkedCases, AllocError>
    ensures { IfOk result AsWorked }
{
    let two = judge(alloc, &TWO_STREAMS)?;
    let three = judge(alloc, &three_streams(3))?;
    let four = judge(alloc, &three_streams(4))?;
    let one = judge(alloc, &one_stream(1))?;
    let none = judge(alloc, &one_stream(0))?;
    Ok(WorkedCases {
        two,
        three,
        four,
        one,
        none,
        repeating: show_two(alloc)?,
        ahead: show_three(alloc)?,
        bridged: bridge_five(),
        edges: edge_cases(),
    })
}

// Works out the worked cases; and says what any check of their tables answers, with the leads and rings of the first.
pub fn worked_cases(alloc: Global) -> Result<WorkedCases, AllocError>
    ensures answers { IfOk result AsWorked }
    ensures two { TwoStreams }
    ensures two_ahead { TwoAhead }
    ensures three { ThreeAhead }
    ensures four { FourAhead }
    ensures one { OneAhead }
    ensures none { NoneAhead }
{
    work_out(alloc)
}

#[cfg(test)]
mod tests;
