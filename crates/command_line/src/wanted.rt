ghost use Rattle.std.specs.Prelude.{◌≡◌};
ghost use Rattle.command_line.specs.Wanted.{unlogged};

use request_values::Request;

/// What the words of a command line ask for, and whether the run has a line in a log, which no request looks at.
#[derive(Drop)]
pub struct Wanted<'a> {
    /// What is to be done.
    pub request: Request<'a>,

    /// Whether the run has a line in a log: only one at a machine may have it.
    pub log: bool,
}

/// A request, and no line in a log.
pub(crate) fn unlogged<'a>(request: Request<'a>) -> Wanted<'a>
    ensures { result ≡ unlogged request.entry }
{
    Wanted {
        request,
        log: false,
    }
}
