//! That no two labels meet.

ghost use Rattle.std.specs.Prelude.{ℕ, ◌<◌};
ghost use Rattle.csp_picture.specs.Apart.{StandApart};

/// The labels of two rows are one below the other, and so is what is written left of the columns.
pub fn labels_stand_apart()
    ensures { (links upper lower : ℕ) → upper < lower → StandApart links upper lower }
{}
