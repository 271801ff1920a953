// The windows of a text one after another.
ghost use Rattle.std.specs.Prelude.{◌≡◌, ℕ, ◌+◌, ◌<◌};
ghost use Rattle.shapes.specs.Shapes.{corners};
ghost use Rattle.matching.specs.Windows.{window_place};

use cells::windows::WindowPlace;

// The window after v, row by row of corners: from the one before it, so that its corner costs no division.
pub fn next_window(v: WindowPlace, across: usize) -> WindowPlace
    requires { (across ≡ corners v.columns v.width) × (0 < across) × (v.column < across) × (v.row < 65025) }
    ensures { (k : ℕ) → v ≡ window_place v.columns v.height v.width k → result
        ≡ window_place v.columns v.height v.width (k + 1) }
{
    let column = v.column + 1;
    if column < across {
        return WindowPlace {
            columns: v.columns,
            row: v.row,
            column,
            height: v.height,
            width: v.width,
        };
    }
    WindowPlace {
        columns: v.columns,
        row: v.row + 1,
        column: 0,
        height: v.height,
        width: v.width,
    }
}
