// Answers that operators share.
ghost use Rattle.std.specs.Prelude.{◌≡◌, if◌then◌else◌};
ghost use Rattle.pl_ops.specs.declared.words.Next.TheVariants.{Wants, End};
ghost use Rattle.pl_ops.specs.declared.words.Side.TheVariants.{Left};

use pl_ops::{Next, Side};

/// What an operator with one input answers if it has no row: the end, or that it wants one.
pub(crate) fn without_row(is_over: bool) -> Next
    ensures { result ≡ (if is_over then End else Wants Left) }
{
    if is_over {
        Next::End
    } else {
        Next::Wants(Side::Left)
    }
}
