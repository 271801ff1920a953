// Where the pairs of a found window are read: for each of the pattern's symbols one offset from the window's corner,
// the same for every window. So the divisions are made once a search, and not for each pair.
ghost use Rattle.std.specs.Prelude.{◌≡◌, ◌≤◌, ◌<◌, length, take};
ghost use Rattle.prefixes.specs.State.{FirstPlaces};
ghost use Rattle.sets.specs.Symbols.{symbols_of};
ghost use Rattle.matching.specs.Compare.{cell_of_pattern};
ghost use Rattle.entries.specs.Listing.Offsets.{pair_places};

use cells::windows::cell_offset;
use placed::pattern::Pattern;

// One of the pattern's symbols, and the offset from a window's corner to the window's cell at the symbol's first place.
// An offset is of 32 bits, so that a table of 256 takes 2 KiB of stack and not 4; by `as`: `try_from` would have a way
// out that no value takes.
#[derive(Clone, Copy)]
pub struct PairPlace {
    pub symbol: u8,
    pub offset: u32,
}

// The listed symbols, each with its offset, at the front of a table.
pub fn list_offsets<P: Pattern>(
    pattern: P,
    columns: usize,
    width: usize,
    listed: &[u8],
    first: &[usize; 256],
    pairs: &mut [PairPlace; 256],
)
    requires { (0 < width) × (width ≤ 255) × (columns ≤ 255) × (length (P.cells pattern) ≤ 65025)
        × (listed.now ≡ symbols_of (P.cells pattern))
        × FirstPlaces (cell_of_pattern (P.cells pattern)) (length (P.cells pattern)) first.now
        × (length pairs.old ≡ 256) }
    ensures long { length pairs.new ≡ 256 }
    ensures pairs_after { take (length listed.now) pairs.new ≡ pair_places (P.cells pattern) columns width }
{
    for (k, symbol) in listed.iter().enumerate() {
        let symbol = *symbol;
        let p = first[usize::from(symbol)];
        pairs[k] = PairPlace {
            symbol,
            offset: cell_offset(columns, width, p) as u32,
        };
    }
}
