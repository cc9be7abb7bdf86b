//! Laws of the definitions that the contracts cite. A call does nothing.
ghost use Rattle.psx_ports.specs.Counter.{TurnsAreTurnByTurn};
ghost use Rattle.psx_ports.specs.Stands.{LineStays, DeadlineIsLater};

/// Until the deadline no count changes the interrupt line: who keeps the line need not ask for it again until then.
pub fn line_stays()
    ensures line { LineStays }
    ensures later { DeadlineIsLater }
{}

/// The value after some turns, which the definition has in closed form, is that of as many single turns.
pub fn turn_by_turn()
    ensures { TurnsAreTurnByTurn }
{}
