//! The words of the command line.

ghost use Rattle.std.specs.Prelude.{◌≡◌, MatchOption, None, Some};
ghost use Rattle.qz_driver.specs.Commands.{requested, request_by, is_option, request_in};

/// What the words ask for.
#[derive(Clone, Copy, Debug)]
pub enum Request<'w> {
    /// To build the module of this name from this source.
    Build(Named<'w>),
    /// To run the module of this name in this source over the inputs that are held for it.
    Run(Named<'w>),
    /// To run the circuit of this name in this Verilog text over the inputs that are held for it.
    Simulate(Named<'w>),
}

/// The name of a module and the file in which it is.
#[derive(Clone, Copy, Debug)]
pub struct Named<'w> {
    pub name: &'w str,
    pub file: &'w str,
}

/// What the words ask for, or none where they break a rule: they are `build`, `run` or `sim`, a name
/// and a file, and none begins with `-`.
pub fn command(words: &[String]) -> Option<Request<'_>>
    ensures { MatchOption result (requested words.now ≡ None) (λ request. requested words.now ≡ Some (request_in request)) }
{
    match words {
        [mode, name, file] => {
            let (name, file) = (name.as_str(), file.as_str());
            if starts_as_option(name) || starts_as_option(file) {
                return None;
            }
            request_for(mode.as_str(), Named { name, file })
        }
        _ => None,
    }
}

/// What a mode with one file asks for.
fn request_for<'w>(mode: &str, named: Named<'w>) -> Option<Request<'w>>
    ensures { MatchOption result (request_by mode.now named.entry.name.now named.entry.file.now ≡ None)
        (λ request. request_by mode.now named.entry.name.now named.entry.file.now ≡ Some (request_in request)) }
{
    if mode == "build" {
        Some(Request::Build(named))
    } else if mode == "run" {
        Some(Request::Run(named))
    } else if mode == "sim" {
        Some(Request::Simulate(named))
    } else {
        None
    }
}

/// Whether a word begins as an option does.
fn starts_as_option(word: &str) -> bool
    ensures { result ≡ is_option word.now }
{
    match word.as_bytes() {
        [first, ..] => *first == b'-',
        [] => false,
    }
}
