//! What of the kernel machine's entries a ROM serves, and by what it is known of a run that its entries are among them.
ghost use Rattle.std.specs.Prelude.{ℕ};
ghost use Rattle.psx_base.specs.Items.{Entrance};
ghost use Rattle.psx_base.specs.KernelState.{KernelState};
ghost use Rattle.psx_ports.specs.History.{History};
ghost use Rattle.abs_run.specs.RunLaws.{always};

/// A choice of entries, for the laws of runs. It has no function: its members are for contracts alone.
pub trait Coverage {
    /// Which entries are covered, by the state of the user side and the exception's code, which is 0 for an interrupt.
    ghost covers: { KernelState → ℕ → Type 0 };

    /// An invariant of the state and the device history at the moments of user code.
    ghost keeps: { KernelState → History → Type 0 };

    /// What is known of the entries that a run's trace shows, by their entrance and number.
    ghost shows: { Entrance → ℕ → Type 0 };
}

/// Every entry, of which nothing need be known.
pub struct Everything;

impl Coverage for Everything {
    ghost covers = { always };

    ghost keeps = { λ s h. Unit {0} };

    ghost shows = { λ gate number. Unit {0} };
}
