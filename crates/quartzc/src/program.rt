//! What the program does with the words, the files and the standard output that it is given.

ghost use Rattle.std.specs.Prelude.{◌≡◌};
ghost use Rattle.std.specs.Process.{exit_status};
ghost use Rattle.qz_driver.specs.Status.{code_of};

use qz_driver::{Status, quartzc};
use qz_io::{HostFiles, HostSink};
use std::env;
use std::io::{self, ErrorKind};
use std::process::{ExitCode, Termination};
use std::rt::{Env, Files};

/// How the program ends. Only `run` gives one, so a `main` that answers it has made its call.
#[derive(Drop)]
pub struct Ended {
    status: Status,
}

impl Termination for Ended {
    fn report<R: Eprint>(self, _rt: &R) -> ExitCode
        ensures { exit_status result ≡ code_of self.status }
    {
        ExitCode::from(self.status.code())
    }
}

/// Makes the call of these words over these files and this output, and tells how it ended. Where
/// keeping the words finds no memory, the call isn't made.
pub fn run<E: Env + AllocGlobal, F: Files + Drop, O: Print + Drop>(
    words: &E,
    files: F,
    output: O,
) -> Ended {
    let status = match words_of(words) {
        Ok(given) => {
            let mut files = HostFiles::new(files);
            let mut output = HostSink::new(output);
            quartzc(words.alloc(), given.as_slice(), &mut files, &mut output)
        }
        Err(_) => Status::NoMemory,
    };
    Ended { status }
}

/// The words after the program's name. Where one of them isn't UTF-8, a lone `-` stands for them all,
/// which breaks a rule as such a word does.
///
/// # Errors
///
/// Where keeping the words finds no memory.
fn words_of<E: Env + AllocGlobal>(env: &E) -> io::Result<Vec<String>> {
    match env::args(env) {
        Ok(args) => args.skip(1).collect(env.alloc()).map_err(io::Error::from),
        Err(error) if error.kind() == ErrorKind::InvalidData => {
            let dash = String::from_str(env.alloc(), "-")?;
            let words = vec![in env.alloc(); dash]?;
            Ok(words)
        }
        Err(error) => Err(error),
    }
}
