//! A run on a board, and what it sends.
ghost use Rattle.std.specs.Prelude.{◌≡◌, ◌<◌, ℕ, None, false, IfOk, OnOk, OnErr};
ghost use Rattle.psx_base.specs.declared.host.Out.{Out};
ghost use Rattle.psx_base.specs.Host.{Rose};
ghost use Rattle.psx_board.specs.Machine.{Machine};
ghost use Rattle.psx_board.specs.Run.{run};
ghost use Rattle.psx_board.specs.Stands.{Stands};
ghost use Rattle.psxk_run.specs.Sent.{Grew, GrewFront, GoesOn, OnlyOn};
ghost use Rattle.psxk_run.specs.Texts.{ram_text, Delivers, BreaksOff, Partway, IfDone, OnFailed};

use crate::lines::Lines;
use crate::steps::steps;
use psx_base::{Host, Out, SendError, Stop};
use psx_board::Board;
use psx_ram::Ram;

/// How a run on a board ended.
#[derive(Clone, Copy, PartialEq, Eq, Debug)]
pub enum RunEnd {
    /// It stopped, and its texts were sent whole.
    Done(Stop),
    /// A send failed.
    Failed,
}

// Sends the memory: main memory, then the scratchpad.
fn send_ram<H: Host>(host: &mut H, ram: &Ram) -> Result<(), SendError>
    ensures sent { OnOk result (Grew (H.sent host.old Out.Ram) (H.sent host.new Out.Ram) (ram_text ram.now)) }
    ensures front { OnErr result (GrewFront (H.sent host.old Out.Ram) (H.sent host.new Out.Ram) (ram_text ram.now)) }
    ensures others { OnlyOn Out.Ram (H.sent host.old) (H.sent host.new) }
    ensures failed { OnErr result (Rose (H.send_faults host.old) (H.send_faults host.new)) }
    ensures on { GoesOn H.holds H.load_faults H.send_faults host.old host.new }
{
    if let Err(error) = host.send(Out::Ram, ram.main()) {
        return Err(error);
    }
    if let Err(error) = host.send(Out::Ram, ram.scratchpad()) {
        return Err(error);
    }
    Ok(())
}

// Runs a board, and sends its texts.
fn sends<H: Host>(board: &mut Board, budget: u32, host: &mut H) -> Result<Stop, SendError>
    requires fresh { board.old.taken ≡ 0 }
    ensures stop { (m : Machine) → Stands board.old m → m.began ≡ false → IfOk result (λ stop. stop ≡ (run budget m).stop) }
    ensures sent { (m : Machine) → Stands board.old m → m.began ≡ false → OnOk result (Delivers (H.sent host.old) (H.sent host.new) (run budget m)) }
    ensures left { (m : Machine) → Stands board.old m → m.began ≡ false → OnOk result (Stands board.new (run budget m).last) }
    ensures fronts { (m : Machine) → Stands board.old m → m.began ≡ false → OnErr result (BreaksOff (H.sent host.old) (H.sent host.new) (run budget m)) }
    ensures partway { (m : Machine) → Stands board.old m → m.began ≡ false → OnErr result (Partway board.new budget m) }
    ensures failed { OnErr result (Rose (H.send_faults host.old) (H.send_faults host.new)) }
    ensures on { GoesOn H.holds H.load_faults H.send_faults host.old host.new }
{
    let mut lines = Lines::new();
    let stop = match steps(board, budget, host, &mut lines) {
        Ok(stop) => stop,
        Err(error) => return Err(error),
    };
    if let Err(error) = lines.end(host, board.taken(), stop) {
        return Err(error);
    }
    if let Err(error) = send_ram(host, board.ram()) {
        return Err(error);
    }
    Ok(stop)
}

/// Runs a board from its first step until it stops or the budget of steps is used up. It sends Tty and Trace in pieces of fixed room, and Ram after both.
/// It takes no memory.
pub fn run_on<H: Host>(board: &mut Board, budget: u32, host: &mut H) -> RunEnd
    requires fresh { board.old.taken ≡ 0 }
    requires budget { 0 < budget }

    // Done with a stop comes exactly where the board's run has that stop and no send failed; the texts of that run are sent, and the board is as after it.
    ensures stop { (m : Machine) → Stands board.old m → m.began ≡ false → IfDone result (λ stop. stop ≡ (run budget m).stop) }
    ensures sent { (m : Machine) → Stands board.old m → m.began ≡ false → IfDone result (λ stop. Delivers (H.sent host.old) (H.sent host.new) (run budget m)) }
    ensures left { (m : Machine) → Stands board.old m → m.began ≡ false → IfDone result (λ stop. Stands board.new (run budget m).last) }

    // Failed comes only where a count of sends rose. It leaves a front of each text, and the board as after the steps that were made.
    ensures failed { OnFailed result (Rose (H.send_faults host.old) (H.send_faults host.new)) }
    ensures fronts { (m : Machine) → Stands board.old m → m.began ≡ false → OnFailed result (BreaksOff (H.sent host.old) (H.sent host.new) (run budget m)) }
    ensures partway { (m : Machine) → Stands board.old m → m.began ≡ false → OnFailed result (Partway board.new budget m) }
    ensures on { GoesOn H.holds H.load_faults H.send_faults host.old host.new }
{
    match sends(board, budget, host) {
        Ok(stop) => RunEnd::Done(stop),
        Err(_) => RunEnd::Failed,
    }
}
