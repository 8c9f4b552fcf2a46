ghost use Rattle.std.specs.Prelude.{◌≡◌};
ghost use Rattle.coll_parser.specs.Code.{request_view};
ghost use Rattle.coll_script.specs.Matching.{first_of};

use coll_kinds::Signature;
use coll_parser::Request;

/// The line and the signature of the earliest request at a place, with which the others are compared.
#[derive(Clone, Copy, Debug)]
pub(crate) struct Earliest {
    pub(crate) line: u32,
    pub(crate) sig: Signature,
}

/// The line and the signature of a request.
pub(crate) fn first_of(request: &Request) -> Earliest
    ensures { result ≡ first_of (request_view request.now) }
{
    Earliest {
        line: request.line,
        sig: request.sig,
    }
}
