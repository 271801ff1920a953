// The numbers by which an enlargement is read off its pattern (crates/placed), found once for a search: there a
// position is divided by a product with an inverse.
ghost use Rattle.std.specs.Prelude.{◌≡◌, List, ℕ, ◌*◌, ◌≤◌, length};
ghost use Rattle.shapes.specs.Shapes.{Sides};
ghost use Rattle.placed.specs.Placing.{enlarged, inverse, Sound};
ghost use Rattle.scaled.specs.Scaled.{FitsAt, enlarged_cells};

use placed::enlarged::Enlarged;
use placed::pattern::Pattern;
use shapes::question::Question;
use shapes::shapes::Shape;

// What a position is multiplied by where it is divided by d.
fn inverse_of(d: usize) -> usize
    requires { 1 ≤ d }
    ensures { result ≡ inverse d }
{
    4294967296 / d + 1
}

// How a pattern of some sides lies, enlarged, whichever it is: the scale, those sides, how many cells the enlargement
// has, and what a position is multiplied by where it is divided.
#[derive(Clone, Copy)]
pub struct Placing {
    pub scale: usize,
    pub height: usize,
    pub width: usize,
    pub cells: usize,
    pub by_scale: usize,
    pub by_width: usize,
    pub by_block: usize,
    pub ghost sound: { Sound scale height width cells by_scale by_width by_block },
}

// How a pattern of those sides lies, enlarged k times.
pub fn enlarging(s: Shape, k: usize) -> Placing
    requires { Sides s.rows s.columns s.height s.width × FitsAt k s }
    ensures lies { (pattern : List ℕ) → length pattern ≡ s.height * s.width
        → enlarged pattern result.scale result.width result.cells ≡ enlarged_cells k pattern s.height s.width }
    ensures sides { (result.height ≡ s.height) × (result.width ≡ s.width) }
{
    let width = k * s.width;
    Placing {
        scale: k,
        height: s.height,
        width: s.width,
        cells: k * s.height * width,
        by_scale: inverse_of(k),
        by_width: inverse_of(width),
        by_block: inverse_of(width * k),
    }
}

// The pattern that is asked about, enlarged k times.
pub fn enlarged_pattern<'a>(q: Question<'a>, k: usize) -> Enlarged<'a>
    requires { Sides q.shape.rows q.shape.columns q.shape.height q.shape.width × FitsAt k q.shape
        × (length q.pattern.now ≡ q.shape.height * q.shape.width) }
    ensures { let s = q.entry.shape in
        ⟦<Enlarged<'a> as Pattern>⟧.cells result ≡ enlarged_cells k q.entry.pattern.now s.height s.width }
{
    let g = enlarging(q.shape, k);
    Enlarged {
        own: q.pattern,
        scale: g.scale,
        height: g.height,
        width: g.width,
        cells: g.cells,
        by_scale: g.by_scale,
        by_width: g.by_width,
        by_block: g.by_block,
    }
}
