// All windows of a listing, row by row.
ghost use Rattle.std.specs.Prelude.{◌≡◌, ◌+◌, ◌<◌, eqb};
ghost use Rattle.theory.specs.Older.{Older};
ghost use Rattle.theory.specs.Test.{pick};
ghost use Rattle.shapes.specs.Questions.{Posed, question_in};
ghost use Rattle.sets.specs.Symbols.{symbols_of};
ghost use Rattle.inheriting.specs.Inheritance.{CheckTables};
ghost use Rattle.verify.specs.Windows.{WindowsWalked};

use cells::windows::WindowPlace;
use inheriting::tables::Tables;
use judging::entries::check_entry;
use listing::records::Kind;
use marking::marks::symbol_set;
use matching::compared::Compared;
use matching::windows::next_window;
use refusals::refusals::Refusal;
use sets::symbols::list_symbols;
use shapes::question::Question;
use shapes::tables::table;
use view::WindowView;

// Where the windows end, and how many of them stand as found.
#[derive(Clone, Copy, Debug, PartialEq, Eq)]
pub struct Passed {
    pub at: usize,
    pub found: u16,
}

// The windows found so far, and one more where a found record stands.
fn found_after(found: u16, kind: u8) -> u16
    requires { found < 65535 }
    ensures { result ≡ pick (eqb kind 1) (found + 1) found }
{
    if kind == u8::from(Kind::Found) {
        return found + 1;
    }
    found
}

// The records of every window, from the listing's first byte, with tables that no window has used yet; or the first bad
// record. Each window is marked with a number 256 above the last one's, so that the table of symbols given is not
// emptied for it.
fn walk_windows(
    q: Question,
    symbols: &[u8],
    tables: &mut Tables,
    listing: &[u8],
) -> Result<Passed, Refusal>
    requires { Posed (question_in q) × (symbols.now ≡ symbols_of q.pattern.now) × Older 256 tables.old.given
        × CheckTables q.text.now q.pattern.now q.shape.columns q.shape.height q.shape.width tables.old }
    ensures { WindowsWalked (question_in q.entry) listing.now result }
{
    let s = q.shape;
    // The sums that `across` and `down` give: every place below would have to be rewritten by the calls' facts.
    let across = s.columns + 1 - s.width;
    let n = (s.rows + 1 - s.height) * across;
    let mut v = WindowPlace {
        columns: s.columns,
        row: 0,
        column: 0,
        height: s.height,
        width: s.width,
    };
    let mut base = 256;
    let mut at = 0;
    let mut found = 0u16;
    // k is there for the invariant: made from it, v would take divisions and base a cast, and found can't be.
    for k in 0..n {
        let window = WindowView {
            text: q.text,
            place: v,
        };
        let pattern = q.pattern;
        let c = Compared { window, pattern };
        let next = check_entry(c, symbols, base, tables, listing, at)?;
        found = found_after(found, listing[at]);
        at = next;
        v = next_window(v, across);
        base += 256;
    }
    Ok(Passed { at, found })
}

// The records of every window, from the listing's first byte. The pattern's symbols are listed once, and not again for
// each window; nothing else is prepared before a found record asks for it.
pub fn check_windows(q: Question, listing: &[u8]) -> Result<Passed, Refusal>
    requires { Posed (question_in q) }
    ensures { WindowsWalked (question_in q.entry) listing.now result }
{
    let set = symbol_set(q.pattern);
    let mut listed = table(0);
    let d = list_symbols(set, &mut listed);
    let mut tables = Tables::new();
    walk_windows(q, &listed[..d], &mut tables, listing)
}
