ghost use Rattle.std.specs.Prelude.{◌≡◌};
ghost use Rattle.frames.specs.Refusing.{part_refusal};

use modes::plan::Part;
use refusals::cause::Cause;
use refusals::refusal::Refusal;

/// A refusal that tells the subframe and the track of a part, each if it has one.
pub(crate) fn refused(cause: Cause, part: Part) -> Refusal
    ensures { result ≡ part_refusal cause part }
{
    Refusal {
        cause,
        spot: part.spot(),
    }
}
