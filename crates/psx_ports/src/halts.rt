//! The three words of a halt, and the stop of its code.
ghost use Rattle.std.specs.Prelude.{◌≡◌, nat_eq, if◌then◌else◌};
ghost use Rattle.psx_ports.specs.HaltCodes.{halt_stop, table_of};
ghost use Rattle.psx_ports.specs.History.{halted};

use crate::PortDid;
use psx_base::ports::{HALT_A, HALT_B, HALT_C};
use psx_base::{Stop, Table};

/// The words last written to the halt ports a, b and c, 0 at first.
#[derive(Clone, Copy)]
pub struct Halts {
    pub a: u32,
    pub b: u32,
    pub c: u32,
}

fn table(a: u32) -> Table
    ensures { result ≡ table_of a }
{
    match a {
        0 => Table::A,
        1 => Table::B,
        2 => Table::C,
        _ => Table::Sys,
    }
}

impl Halts {
    /// Keeps a word that is written to the halt port a, b or c; nothing happens at another port.
    pub fn write(&mut self, at: u32, value: u32)
        ensures a { self.new.a ≡ (if nat_eq at HALT_A then value else self.old.a) }
        ensures b { self.new.b ≡ (if nat_eq at HALT_B then value else self.old.b) }
        ensures c { self.new.c ≡ (if nat_eq at HALT_C then value else self.old.c) }
    {
        match at {
            HALT_A => self.a = value,
            HALT_B => self.b = value,
            HALT_C => self.c = value,
            _ => {}
        }
    }

    /// What a write of a code to the halt port does.
    pub fn halt(self, code: u32) -> PortDid
        ensures { result ≡ halted (halt_stop code self.a self.b self.c) }
    {
        let (a, b, c) = (self.a, self.b, self.c);
        match code {
            1 => PortDid::Halt(Stop::Exit { code: a }),
            2 => PortDid::Halt(Stop::Exception { code: a, pc: b }),
            3 => PortDid::Halt(Stop::Unserved {
                table: table(a),
                number: b,
                ra: c,
            }),
            4 => PortDid::Halt(Stop::BadPointer { at: a, ra: b }),
            5 => PortDid::Halt(Stop::BadThread { number: a, ra: b }),
            6 => PortDid::Halt(Stop::Deep { ra: a }),
            7 => PortDid::Halt(Stop::BadReturn { ra: a }),
            _ => PortDid::Quiet,
        }
    }
}
