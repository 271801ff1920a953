// A cheap test before a window is compared: the pattern's pairs of alike cells, in the window.
ghost use Rattle.std.specs.Prelude.{◌≡◌, false, ◌<◌};
ghost use Rattle.shapes.specs.Shapes.{down};
ghost use Rattle.sieve.specs.Sieve.{Differs, PairsAsked};

use alike::pairs::{Pair, pairs_alike};
use placed::pattern::Pattern;
use shapes::shapes::Shape;

// False only where the window at row top does not match: a pair of the pattern's is not alike in it. The pattern itself
// is not read: it stands here for the contract.
pub fn pairs_pass<P: Pattern>(
    text: &[u8],
    pattern: P,
    pairs: &[Pair; 8],
    s: Shape,
    left: usize,
    top: usize,
) -> bool
    requires { PairsAsked text.now (P.cells pattern) pairs.now s left × (top < down s) }
    ensures { result ≡ false → Differs text.now (P.cells pattern) s left top }
{
    let corner = top * s.columns + left;
    if !pairs_alike(text, corner, pairs, 0) {
        return false;
    }
    pairs_alike(text, corner, pairs, 4)
}
