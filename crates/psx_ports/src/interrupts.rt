//! I_STAT, I_MASK, and the line to the processor (PSX-SPX, Interrupt Control).
ghost use Rattle.std.specs.Prelude.{◌≡◌, ◌%◌, ◌^◌, ◌<◌, ◌≤◌, true, false, bit_and, bit_or};

/// The pending lines and the mask, 11 bits each, and whether a pending line isn't masked.
#[derive(Clone, Copy)]
pub struct Interrupts {
    /// I_STAT.
    pub pending: u32,
    /// I_MASK.
    pub mask: u32,
    /// The line to the processor.
    pub line: bool,
}

impl Interrupts {
    ghost use Rattle.psx_ports.specs.Interrupts.{with_pending, with_mask};

    /// No line is pending, and all are masked.
    pub fn new() -> Interrupts
        ensures { result ≡ record { pending = 0; mask = 0; line = false } }
    {
        Interrupts {
            pending: 0,
            mask: 0,
            line: false,
        }
    }

    /// Lines become pending: those whose bits are set.
    pub fn raise(&mut self, lines: u32)
        ensures { self.new ≡ with_pending self.old (bit_or self.old.pending lines) }
    {
        self.pending |= lines;
        self.line = self.pending & self.mask != 0;
    }

    /// Only those lines stay pending whose bits are set in a value.
    pub fn acknowledge(&mut self, value: u32)
        ensures { self.new ≡ with_pending self.old (bit_and self.old.pending value) }
    {
        self.pending &= value;
        self.line = self.pending & self.mask != 0;
    }

    /// Stores the mask, the low 11 bits of a value.
    pub fn set_mask(&mut self, value: u32)
        ensures { self.new ≡ with_mask self.old (value % 2 ^ 11) }
    {
        self.mask = value % 0x800;
        self.line = self.pending & self.mask != 0;
    }
}
