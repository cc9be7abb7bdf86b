//! The steps of a run, until it stops or the budget is used up.
ghost use Rattle.std.specs.Prelude.{◌≡◌, ◌<◌, ℕ, [], None, false, IfOk, OnErr};
ghost use Rattle.psx_base.specs.Host.{Rose};
ghost use Rattle.psx_board.specs.Machine.{Machine};
ghost use Rattle.psx_board.specs.Run.{run};
ghost use Rattle.psx_board.specs.Stands.{Stands};
ghost use Rattle.psxk_run.specs.Sent.{GoesOn};
ghost use Rattle.psxk_run.specs.Texts.{BreaksOff, Partway};
ghost use Rattle.psxk_run.specs.Underway.{Stopped};

use crate::lines::Lines;
use psx_base::{Host, SendError, Stop};
use psx_board::Board;
use psx_cpu::Did;

// Steps a board, and tells its host what it does. What isn't sent yet waits in the lines.
pub(crate) fn steps<H: Host>(
    board: &mut Board,
    budget: u32,
    host: &mut H,
    lines: &mut Lines,
) -> Result<Stop, SendError>
    requires fresh { board.old.taken ≡ 0 }
    requires tty { lines.old.tty.items ≡ [] }
    requires trace { lines.old.trace.items ≡ [] }
    requires began { lines.old.began ≡ false }
    ensures stopped { (m : Machine) → Stands board.old m → m.began ≡ false →
        IfOk result (λ stop. Stopped (run budget m) stop board.new (H.sent host.old) (H.sent host.new) lines.new.tty.items lines.new.trace.items) }
    ensures breaks { (m : Machine) → Stands board.old m → m.began ≡ false → OnErr result (BreaksOff (H.sent host.old) (H.sent host.new) (run budget m)) }
    ensures partway { (m : Machine) → Stands board.old m → OnErr result (Partway board.new budget m) }
    ensures failed { OnErr result (Rose (H.send_faults host.old) (H.send_faults host.new)) }
    ensures on { GoesOn H.holds H.load_faults H.send_faults host.old host.new }
{
    let first = board.taken();
    for turn in 0..budget {
        let line = board.line();
        let did = board.step();
        match did {
            Did::Stopped(stop) => return Ok(stop),
            _ => {
                let count = first + turn as u64;
                if let Err(error) = lines.tell(host, count, line, did, board.cpu()) {
                    return Err(error);
                }
            }
        }
    }
    Ok(Stop::Budget)
}
