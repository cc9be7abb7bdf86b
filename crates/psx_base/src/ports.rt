//! The addresses of the ports, all physical.
//! PSX-SPX, Interrupt Control and Timers, has those below 1F802000h. The others are this board's own.
ghost use Rattle.std.specs.Prelude.{◌≡◌};
ghost use Rattle.psx_base.specs.PortAddresses.{port};
ghost use Rattle.psx_base.specs.Ports;

/// The pending lines.
pub const I_STAT: u32 = 0x1F80_1070;

/// The lines that may interrupt.
pub const I_MASK: u32 = 0x1F80_1074;

/// The value of root counter 0. Its mode stands 4 behind, its target 8, and each further counter 10h.
pub const COUNTERS: u32 = 0x1F80_1100;

/// Reads 1 where a byte is due, else 0.
pub const CONSOLE_STATUS: u32 = 0x1F80_2100;

/// Reads the first due byte, writes a byte to the terminal.
pub const CONSOLE_DATA: u32 = 0x1F80_2104;

/// The first word of a halt.
pub const HALT_A: u32 = 0x1F80_2108;

/// The second word of a halt.
pub const HALT_B: u32 = 0x1F80_210C;

/// The third word of a halt.
pub const HALT_C: u32 = 0x1F80_2110;

/// A write stops the run by its code.
pub const HALT: u32 = 0x1F80_2114;

/// Reads the program's pc.
pub const START_PC: u32 = 0x1F80_2118;

/// Reads the program's gp.
pub const START_GP: u32 = 0x1F80_211C;

/// Reads the program's sp.
pub const START_SP: u32 = 0x1F80_2120;

/// Reads the number of threads.
pub const START_THREADS: u32 = 0x1F80_2124;

/// Reads the number of events.
pub const START_EVENTS: u32 = 0x1F80_2128;

/// The constants of this module are the addresses of the port table in `specs/Ports.antt`, of which the definitions of the board speak.
///
/// It does nothing: its contract is the law.
pub fn addresses()
    ensures stat { I_STAT ≡ Ports.I_STAT }
    ensures mask { I_MASK ≡ Ports.I_MASK }
    ensures counters { COUNTERS ≡ Ports.COUNTERS }
    ensures status { CONSOLE_STATUS ≡ Ports.CONSOLE_STATUS }
    ensures data { CONSOLE_DATA ≡ Ports.CONSOLE_DATA }
    ensures halt_a { HALT_A ≡ Ports.HALT_A }
    ensures halt_b { HALT_B ≡ Ports.HALT_B }
    ensures halt_c { HALT_C ≡ Ports.HALT_C }
    ensures halt { HALT ≡ Ports.HALT }
    ensures pc { START_PC ≡ Ports.START_PC }
    ensures gp { START_GP ≡ Ports.START_GP }
    ensures sp { START_SP ≡ Ports.START_SP }
    ensures threads { START_THREADS ≡ Ports.START_THREADS }
    ensures events { START_EVENTS ≡ Ports.START_EVENTS }
{}

/// Whether a physical address is a port's: a port is one word, and the other bytes of the word are none.
#[tactic(auto, unfolding(crate::specs::PortAddresses::port))]
pub fn is_port(physical: u32) -> bool
    ensures { result ≡ port physical }
{
    match physical {
        I_STAT | I_MASK => true,
        COUNTERS..=0x1F80_1128 => physical % 16 <= 8 && physical % 4 == 0,
        _ => physical >= CONSOLE_STATUS && physical <= START_EVENTS && physical % 4 == 0,
    }
}
