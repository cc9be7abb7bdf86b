//! The port that the coming step reads: the board asks the device for its answer before it makes the step.
ghost use Rattle.std.specs.Prelude.{◌≡◌, ℕ};
ghost use Rattle.std.specs.Option.{option_map};
ghost use Rattle.psx_cpu.specs.Views.{core_of};
ghost use Rattle.psx_cpu.specs.Step.{step, port_read};

use crate::access::read_word;
use crate::cpu::Cpu;
use crate::step::PortRead;
use psx_base::{Addr, is_port};
use psx_ins::reg::Reg;
use psx_ram::Ram;

// The op of LW, the only instruction that reads ports.
const LOAD_WORD: u32 = 0x23;

impl Cpu {
    /// The port that the coming step reads, where `line` says whether a pending line isn't masked. Nothing changes.
    /// Only LW on the kernel's side reads ports: the guard keeps the user's from them.
    #[tactic(auto, using(crate::proofs::PortReads::port_reads))]
    #[inline]
    pub fn peek_port(&self, ram: &Ram, line: bool) -> Option<PortRead>
        ensures { (value : ℕ) → option_map (λ p. p.at) result ≡ port_read (step (core_of self.now ram.now) (record { line = line; value = value })) }
    {
        if !self.latch() {
            return None;
        }
        if self.takes_interrupt(line) {
            return None;
        }
        if self.pc() % 4 != 0 {
            return None;
        }
        let word = read_word(ram, self.pc());
        if word / 0x400_0000 != LOAD_WORD {
            return None;
        }
        let at = self.data_address(Reg(word / 0x20_0000 % 32), (word % 0x1_0000) as u16);
        if at % 4 != 0 {
            return None;
        }
        let to = Addr(at).place();
        if is_port(to) {
            Some(PortRead { at: to })
        } else {
            None
        }
    }
}
