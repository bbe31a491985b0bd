// Reads a table from standard input, and prints what it is or why it is refused.
#![tactic(auto)]

ghost use Rattle.std.specs.Prelude.{◌≡◌, ◌≤◌, [], ◌∷◌, length, take, IfOk, IfSome, string_bytes};
ghost use Rattle.std.specs.Io.KnownBytes.{Appends};
ghost use Rattle.check_table.specs.Telling.{Reports};
ghost use Rattle.programs.specs.Telling.{written};

use anyhow::anyhow;
use programs::exit::exit_code;
use programs::input::tell_input;
use std::alloc::Global;
use std::env;
use std::io::{Read, Write};
use std::process::ExitCode;
use tables::line::{tell, tell_walk};

const USAGE: &str = "usage: check_table [--walk] < TABLE
Reads the raw bytes of a table from standard input and prints one line:
  accepted channels C streams S rules R slots N
                    the bytes are a table with so many records and ring slots
  refused F at P    they are none: refusal number F at place P
With --walk, refusals 8 and 9 are followed by a line for each reference of the
walk to blame, `ref READER READ DROP`: the numbers among all records, from 0, of
the record that reads and the one that is read, and the drop.
The status is 0 after either line, and 1 where the input cannot be read.";

// How much is told of a table.
#[derive(Clone, Copy)]
enum Report {
    Line,
    Walk,
}

// Writes what the check answers of the table that the input gives, its first 8,193 bytes.
fn check_input<R: Read + Drop, W: Write>(
    alloc: Global,
    input: R,
    output: &mut W,
    report: Report,
) -> anyhow::Result<()>
    ensures { IfOk result (λ _. (bytes : _) × (told : _)
        × (length bytes ≤ 8193)
        × IfSome (R.remaining input) (λ xs. bytes ≡ take 8193 xs)
        × Reports report bytes (string_bytes told)
        × Appends (W.contents output.old) (W.contents output.new) (written (told ∷ []))) }
{
    match report {
        Report::Line => tell_input(alloc, input, output, tell),
        Report::Walk => tell_input(alloc, input, output, tell_walk),
    }
}

// Looks at the arguments: none for a check, or one that asks for the walk too or for help.
// Each program has words and an error text of its own, so one match in two places is the plainest.
fn run(rt: &HostRuntime) -> anyhow::Result<()> {
    let (alloc, input) = (rt.alloc(), rt.stdin());
    match env::args(rt)?.nth(1) {
        None => check_input(alloc, input, &mut rt.stdout(), Report::Line),
        Some(word) if word.as_str() == "--walk" => {
            check_input(alloc, input, &mut rt.stdout(), Report::Walk)
        }
        Some(word) if word.as_str() == "--help" => {
            println!(rt; "{USAGE}")?;
            Ok(())
        }
        Some(_) => Err(anyhow!(
            "takes no arguments but --walk and --help; the table is read from standard input"
        )),
    }
}

fn main(rt: HostRuntime) -> ExitCode {
    exit_code(&rt, "check_table", run(&rt))
}
