// Bijections between symbols, as two columns: forward gives the image of a pattern symbol, backward the preimage of a
// text symbol.
ghost use Rattle.std.specs.Prelude.{◌≡◌};
ghost use Rattle.theory.specs.Columns.{none_or, back_test, leads_back_test};
ghost use Rattle.mapping.specs.Bijections.{empty_bijection, good_columns, renamed, pair_of, invert_of};

use refusals::refusals::{Reason, Refusal};

// 256 stands for no image and no preimage. It is a number and no Option: the columns are lent by C, and document 01
// says what is refused of numbers above 256.
#[derive(Clone, Copy, Debug, PartialEq, Eq)]
pub struct Bijection {
    pub forward: [u16; 256],
    pub backward: [u16; 256],
}

// Whether the entry x, which stands at a, is 256, or a symbol at which g leads back to a.
fn back_at(g: &[u16; 256], x: u16, a: usize) -> bool
    ensures { result ≡ back_test g.now x a }
{
    if x < 256 {
        return usize::from(g[usize::from(x)]) == a;
    }
    x == 256
}

// Whether each entry of f is 256, or a symbol at which g leads back.
fn leads_back(f: &[u16; 256], g: &[u16; 256]) -> bool
    ensures { result ≡ leads_back_test f.now g.now }
{
    for (a, &x) in f.iter().enumerate() {
        if !back_at(g, x, a) {
            return false;
        }
    }
    true
}

// Whether a symbol with the entry x in its column may be paired with y: x is 256 or y.
fn may_have(x: u16, y: u8) -> bool
    ensures { result ≡ none_or x y }
{
    x == u16::from(y) || x == 256
}

impl Bijection {
    // The bijection with no pair.
    #[tactic(auto, unfolding(crate::specs::Bijections::empty_bijection))]
    pub fn empty() -> Bijection
        ensures { result ≡ empty_bijection }
    {
        Bijection {
            forward: [256; 256],
            backward: [256; 256],
        }
    }

    // Whether the columns agree and hold nothing above 256.
    pub fn columns_agree(&self) -> bool
        ensures { result ≡ good_columns self.now }
    {
        leads_back(&self.forward, &self.backward) && leads_back(&self.backward, &self.forward)
    }

    // With a and c paired. Refused by 14, then 12, then 13.
    #[tactic(auto, unfolding(crate::specs::Bijections::pair_of, crate::specs::Bijections::pair_said, crate::specs::Bijections::paired))]
    pub fn pair(self, a: u8, c: u8) -> Result<Bijection, Refusal>
        ensures { renamed self result ≡ pair_of self a c }
    {
        let i = usize::from(a);
        let j = usize::from(c);
        Reason::ColumnsDisagree.unless(self.columns_agree())?;
        Reason::HasOtherImage.unless(may_have(self.forward[i], c))?;
        Reason::HasOtherPreimage.unless(may_have(self.backward[j], a))?;
        let mut r = self;
        r.forward[i] = u16::from(c);
        r.backward[j] = u16::from(a);
        Ok(r)
    }

    // The columns exchanged. Refused by 14.
    #[tactic(auto, unfolding(crate::specs::Bijections::invert_of, crate::specs::Bijections::invert_said, crate::specs::Bijections::inverse))]
    pub fn invert(self) -> Result<Bijection, Refusal>
        ensures { renamed self result ≡ invert_of self }
    {
        Reason::ColumnsDisagree.unless(self.columns_agree())?;
        Ok(Bijection {
            forward: self.backward,
            backward: self.forward,
        })
    }
}
