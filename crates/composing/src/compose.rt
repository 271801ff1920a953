// One bijection after the other: the columns are chained, the backward ones the other way round.
ghost use Rattle.std.specs.Prelude.{◌≡◌};
ghost use Rattle.theory.specs.Columns.{through, chained};
ghost use Rattle.mapping.specs.Bijections.{renamed, compose_of};

use mapping::bijections::Bijection;
use refusals::refusals::{Reason, Refusal};

// The image of x under g, or none where x is none.
fn image_under(g: &[u16; 256], x: u16) -> u16
    ensures { result ≡ through g.now x }
{
    if x < 256 { g[usize::from(x)] } else { 256 }
}

// First one column, then the other.
fn chain_columns(f: &[u16; 256], g: &[u16; 256]) -> [u16; 256]
    ensures { result ≡ chained f.now g.now }
{
    let mut r = [256; 256];
    for (a, &x) in f.iter().enumerate() {
        r[a] = image_under(g, x);
    }
    r
}

// First b, then d. Refused by 14 if either earns it.
#[tactic(auto, unfolding(mapping::specs::Bijections::compose_of, mapping::specs::Bijections::compose_said, mapping::specs::Bijections::composite))]
pub fn compose(b: Bijection, d: Bijection) -> Result<Bijection, Refusal>
    ensures { renamed b result ≡ compose_of b d }
{
    Reason::ColumnsDisagree.unless(b.columns_agree())?;
    Reason::ColumnsDisagree.unless(d.columns_agree())?;
    Ok(Bijection {
        forward: chain_columns(&b.forward, &d.forward),
        backward: chain_columns(&d.backward, &b.backward),
    })
}
