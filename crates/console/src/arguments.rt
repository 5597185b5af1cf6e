//! The arguments of a program that takes none but `--help`.
ghost use Rattle.std.specs.Prelude.{◌≡◌, string_bytes};
ghost use Rattle.std.specs.Option.{option_map};
ghost use Rattle.console.specs.Arguments.{asked_by};

use std::process::ExitCode;
use std::rt::Env;
use std::{env, io};

/// What the arguments of a program ask for.
#[derive(Clone, Copy)]
pub enum Asked {
    /// To run: there are none.
    Run,
    /// To print the help: `--help` alone.
    Help,
    /// Nothing that the program knows.
    Unknown,
}

/// What the first two arguments ask for.
pub fn request_of(first: &Option<String>, second: &Option<String>) -> Asked
    ensures { result ≡ asked_by (option_map string_bytes first.now)
        (option_map string_bytes second.now) }
{
    match (first, second) {
        (None, _) => Asked::Run,
        (Some(word), None) if word.as_str() == "--help" => Asked::Help,
        _ => Asked::Unknown,
    }
}

/// Prints the help where the arguments ask for it, and on standard error where they are unknown,
/// and gives the status to end with: success after `--help`, failure after unknown ones, none where
/// the program is to run.
pub fn answer<R: AllocGlobal + Env + Print + Eprint>(
    rt: &R,
    help: &str,
) -> io::Result<Option<ExitCode>> {
    let mut words = env::args(rt)?;
    // the program's own name
    let _ = words.next();
    match request_of(&words.next(), &words.next()) {
        Asked::Run => Ok(None),
        Asked::Help => {
            rt.print(help)?;
            Ok(Some(ExitCode::SUCCESS))
        }
        Asked::Unknown => {
            eprint!(rt; "{help}")?;
            Ok(Some(ExitCode::FAILURE))
        }
    }
}
