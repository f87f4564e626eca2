//! Two accounts, and a part that moves from one to the other. The proof cites two laws of the library.
ghost use Rattle.std.specs.Prelude.{IfSome};
ghost use Rattle.ratio_uses.specs.Accounts.{KeepsTotal, MovesPart};

use num_rational::Reduced64;
use ratio_laws::{reduced, undoing};

/// The two accounts after the part has moved: `from` less the part, and `to` with it. Their total is the old one. `None` exactly
/// where one of the two does not fit in 64 bits.
pub fn move_part(
    from: &Reduced64,
    to: &Reduced64,
    part: &Reduced64,
) -> Option<(Reduced64, Reduced64)>
    ensures accounts { MovesPart from.now to.now part.now result }
    ensures total { IfSome result (λ accounts. KeepsTotal from.now to.now accounts.0 accounts.1) }
{
    let rest = from.checked_sub(part)?;
    let more = part.checked_add(to)?;
    undoing::sums(from, part);
    reduced::sums(&rest, part, to);
    Some((rest, more))
}
