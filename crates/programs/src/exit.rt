// How a program ends.
ghost use Rattle.std.specs.Prelude.{◌≡◌, MatchResult};

use std::process::ExitCode;

// The status of a program's outcome; an error is told on standard error, after the program's name.
pub fn exit_code(rt: &HostRuntime, name: &str, outcome: anyhow::Result<()>) -> ExitCode
    ensures { MatchResult outcome (λ _. result ≡ ExitCode.SUCCESS) (λ _. result ≡ ExitCode.FAILURE) }
{
    match outcome {
        Ok(()) => ExitCode::SUCCESS,
        Err(e) => {
            let _told = eprintln!(rt; "{name}: {e:#}");
            ExitCode::FAILURE
        }
    }
}
