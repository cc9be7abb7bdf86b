//! Laws of the definitions, each the contract of a function that does nothing.
ghost use Rattle.std.specs.Prelude.{◌≡◌, ℕ};
ghost use Rattle.psx_board.specs.Machine.{Machine};
ghost use Rattle.psx_board.specs.Run.{run};
ghost use Rattle.psx_board.specs.SoFar.{so_far, closed_run};

/// A run within so many steps is its first steps, one call of `Board::step` after the other, closed by its last line.
#[tactic(auto, using(crate::proofs::Steps::run_so_far))]
pub fn run_is_its_steps()
    ensures { (n : ℕ) (m : Machine) → run n m ≡ closed_run (so_far n m) }
{}
