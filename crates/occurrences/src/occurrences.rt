// How often each symbol occurs, and how many different ones do: rows of symbols enter and leave.
ghost use Rattle.std.specs.Prelude.{[], ◌∷◌, length};
ghost use Rattle.occurrences.specs.Occurrences.{occurrences_of, Tracks, RoomToAdd, Adds};
ghost use Rattle.occurrences.specs.Occurrences.{Changeable, Changed, RoomToReplace, Replaces};

// How often each symbol occurs, and how many different ones do.
#[derive(Drop)]
pub struct Occurrences {
    pub of: [u32; 256],
    pub size: u32,
}

// One symbol enters or leaves; the number of different ones afterwards.
fn change<const ENTERS: bool>(of: &mut [u32; 256], size: u32, v: u8) -> u32
    requires { Changeable ENTERS (occurrences_of of.old size) (v ∷ []) }
    ensures { Changed ENTERS (occurrences_of of.old size) (v ∷ []) (occurrences_of of.new result) }
{
    let at = usize::from(v);
    let old = of[at];
    if ENTERS {
        of[at] = old + 1;
        return if old == 0 { size + 1 } else { size };
    }
    of[at] = old - 1;
    if old == 1 { size - 1 } else { size }
}

impl Occurrences {
    // No symbol occurs.
    pub fn none() -> Occurrences
        ensures { Tracks result [] }
    {
        Occurrences {
            of: [0; 256],
            size: 0,
        }
    }

    // Begins afresh: no symbol occurs.
    pub fn clear(&mut self)
        ensures { Tracks self.new [] }
    {
        self.of.fill(0);
        self.size = 0;
    }

    // A row's symbols enter or leave, two in a round: two of them share what the loop itself costs, and short rows take
    // up to a third less time than one by one. The number of different ones is kept outside the struct meanwhile: it
    // would be stored once a symbol.
    fn change_row<const ENTERS: bool>(&mut self, row: &[u8])
        requires { Changeable ENTERS self.old row.now }
        ensures { Changed ENTERS self.old row.now self.new }
    {
        let mut size = self.size;
        let mut rest = row;
        while let [v, w, tail @ ..] = rest {
            size = change::<ENTERS>(&mut self.of, size, *v);
            size = change::<ENTERS>(&mut self.of, size, *w);
            rest = tail;
        }
        if let [v] = rest {
            size = change::<ENTERS>(&mut self.of, size, *v);
        }
        self.size = size;
    }

    // A row's symbols enter.
    pub fn add_row(&mut self, row: &[u8])
        requires { RoomToAdd self.old (length row.now) }
        ensures { Adds self.old row.now self.new }
    {
        self.change_row::<true>(row);
    }

    // A row's symbols leave and those of another, as long, enter. Where the two are alike, every symbol occurs as often
    // as before; short rows are not compared: where they differ, as they mostly do, the comparison would cost too much.
    pub fn replace_row(&mut self, leaving: &[u8], entering: &[u8])
        requires { RoomToReplace self.old leaving.now entering.now }
        ensures { Replaces self.old leaving.now entering.now self.new }
    {
        if 32 <= leaving.len() && leaving == entering {
            return;
        }
        self.change_row::<false>(leaving);
        self.change_row::<true>(entering);
    }
}
