// Checks many tables, one a line of standard input in hexadecimal, and prints what each is.
#![tactic(auto)]

ghost use Rattle.std.specs.Prelude.{IfOk, IfSome, string_bytes};
ghost use Rattle.std.specs.Io.KnownBytes.{Appends};
ghost use Rattle.std.specs.List.{AllZip, filter_map};
ghost use Rattle.programs.specs.Telling.{table_of, text_of, written, Split};
ghost use Rattle.table_vectors.specs.Telling.{Told};

use programs::exit::exit_code;
use programs::vectors::{tell_line, tell_lines};
use std::alloc::{AllocError, Global};
use std::io::{BufRead, BufReader, Write};
use std::process::ExitCode;
use tables::line;

// What is told of a line; a function of its own, since each program promises another text.
fn tell(alloc: Global, text: &str) -> Result<String, AllocError>
    ensures { IfOk result (λ t. Told (table_of text.now) (string_bytes t)) }
{
    tell_line(alloc, text, |bytes| line::tell(alloc, bytes))
}

// Writes what the check answers of each line that counts, before the next is read.
fn check_lines<R: BufRead + Drop, W: Write>(
    alloc: Global,
    input: R,
    output: &mut W,
) -> anyhow::Result<()>
    ensures { IfOk result (λ _. (lines : _) × (told : _)
        × IfSome (R.remaining input) (λ xs. Split xs lines)
        × AllZip (λ text t. Told (table_of text) (string_bytes t)) (filter_map text_of lines) told
        × Appends (W.contents output.old) (W.contents output.new) (written told)) }
{
    tell_lines(alloc, input, output, tell)
}

fn run(rt: &HostRuntime) -> anyhow::Result<()> {
    let alloc = rt.alloc();
    let input = BufReader::new(alloc, rt.stdin())?;
    check_lines(alloc, input, &mut rt.stdout())
}

fn main(rt: HostRuntime) -> ExitCode {
    exit_code(&rt, "table_vectors", run(&rt))
}
