//! What a run tells its host while it goes on: the bytes of the console and the lines of the trace.
ghost use Rattle.std.specs.Prelude.{◌≡◌, ◌<◌, ◌≤◌, ◌+◌, ◌^◌, length, OnOk, OnErr};
ghost use Rattle.psx_base.specs.Host.{Rose};
ghost use Rattle.psx_base.specs.Memory.{Memory};
ghost use Rattle.psx_trace.specs.Plain.{item_of};
ghost use Rattle.psx_cpu.specs.Views.{core_of};
ghost use Rattle.psx_board.specs.Turn.{shown, write_shown};
ghost use Rattle.psx_board.specs.Stands.{told_items, begun, console_bytes};
ghost use Rattle.psxk_run.specs.Sent.{GoesOn};
ghost use Rattle.psxk_run.specs.Pieces.{PutsBoth, BreaksOne, SendsLast, SendsLastFront};
ghost use Rattle.psx_trace.specs.Line;
ghost use Rattle.std.specs.Prelude.{[], ◌∷◌, false, if◌then◌else◌, nat_eq, ◌%◌};
ghost use Rattle.psx_base.specs.Items.{S};

use crate::items::{entry, returned};
use crate::pieces::{Piece, flush, put};
use arrayvec::ArrayVec;
use psx_base::ports::{CONSOLE_DATA, CONSOLE_STATUS, HALT};
use psx_base::{Host, Out, SendError, Stop};
use psx_cpu::{Cpu, Did};
use psx_trace::{Item, line_of};

// The pieces of the console's and the trace's texts that wait, and whether the trace has begun.
#[derive(Drop)]
pub(crate) struct Lines {
    pub(crate) tty: Piece,
    pub(crate) trace: Piece,
    pub(crate) began: bool,
}

impl Lines {
    // Nothing waits.
    pub(crate) fn new() -> Lines
        ensures tty { result.tty.items ≡ [] }
        ensures trace { result.trace.items ≡ [] }
        ensures began { result.began ≡ false }
    {
        Lines {
            tty: ArrayVec::new(),
            trace: ArrayVec::new(),
            began: false,
        }
    }

    // Writes the line of an item.
    pub(crate) fn line<H: Host>(&mut self, host: &mut H, item: Item) -> Result<(), SendError>
        ensures tells { OnOk result (PutsBoth (H.sent host.old) (H.sent host.new) self.old.tty.items self.old.trace.items [] (item_of item ∷ []) self.new.tty.items self.new.trace.items) }
        ensures began { self.new.began ≡ self.old.began }
        ensures breaks { OnErr result (BreaksOne (H.sent host.old) (H.sent host.new) self.old.tty.items self.old.trace.items) }
        ensures failed { OnErr result (Rose (H.send_faults host.old) (H.send_faults host.new)) }
        ensures on { GoesOn H.holds H.load_faults H.send_faults host.old host.new }
    {
        let line = line_of(item);
        put(host, Out::Trace, &mut self.trace, line.as_slice())?;
        Ok(())
    }

    // Writes the line of an item where the trace has begun.
    fn show<H: Host>(&mut self, host: &mut H, item: Item) -> Result<(), SendError>
        ensures tells { OnOk result (PutsBoth (H.sent host.old) (H.sent host.new) self.old.tty.items self.old.trace.items [] (shown self.old.began (item_of item)) self.new.tty.items self.new.trace.items) }
        ensures began { self.new.began ≡ self.old.began }
        ensures breaks { OnErr result (BreaksOne (H.sent host.old) (H.sent host.new) self.old.tty.items self.old.trace.items) }
        ensures failed { OnErr result (Rose (H.send_faults host.old) (H.send_faults host.new)) }
        ensures on { GoesOn H.holds H.load_faults H.send_faults host.old host.new }
    {
        if self.began {
            self.line(host, item)?;
        }
        Ok(())
    }

    // Writes a byte of the console.
    fn byte<H: Host>(&mut self, host: &mut H, byte: u8) -> Result<(), SendError>
        ensures tells { OnOk result (PutsBoth (H.sent host.old) (H.sent host.new) self.old.tty.items self.old.trace.items (byte ∷ []) [] self.new.tty.items self.new.trace.items) }
        ensures began { self.new.began ≡ self.old.began }
        ensures breaks { OnErr result (BreaksOne (H.sent host.old) (H.sent host.new) self.old.tty.items self.old.trace.items) }
        ensures failed { OnErr result (Rose (H.send_faults host.old) (H.send_faults host.new)) }
        ensures on { GoesOn H.holds H.load_faults H.send_faults host.old host.new }
    {
        put(host, Out::Tty, &mut self.tty, &[byte])?;
        Ok(())
    }

    // Writes the last line of the trace, and sends what waits.
    pub(crate) fn end<H: Host>(
        &mut self,
        host: &mut H,
        count: u64,
        stop: Stop,
    ) -> Result<(), SendError>
        ensures ends { OnOk result (SendsLast (H.sent host.old) (H.sent host.new) self.old.tty.items self.old.trace.items (Line.line (S count stop))) }
        ensures fronts { OnErr result (SendsLastFront (H.sent host.old) (H.sent host.new) self.old.tty.items self.old.trace.items (Line.line (S count stop))) }
        ensures failed { OnErr result (Rose (H.send_faults host.old) (H.send_faults host.new)) }
        ensures on { GoesOn H.holds H.load_faults H.send_faults host.old host.new }
    {
        if let Err(error) = self.line(host, Item::S { count, stop }) {
            return Err(error);
        }
        if let Err(error) = flush(host, Out::Tty, &mut self.tty) {
            return Err(error);
        }
        if let Err(error) = flush(host, Out::Trace, &mut self.trace) {
            return Err(error);
        }
        Ok(())
    }

    // Tells a write to a port.
    fn write<H: Host>(
        &mut self,
        host: &mut H,
        count: u64,
        at: u32,
        value: u32,
    ) -> Result<(), SendError>
        ensures tells { OnOk result (PutsBoth (H.sent host.old) (H.sent host.new) self.old.tty.items self.old.trace.items
            (if nat_eq at CONSOLE_DATA then (value % 2 ^ 8) ∷ [] else []) (write_shown self.old.began count at value) self.new.tty.items self.new.trace.items) }
        ensures began { self.new.began ≡ self.old.began }
        ensures breaks { OnErr result (BreaksOne (H.sent host.old) (H.sent host.new) self.old.tty.items self.old.trace.items) }
        ensures failed { OnErr result (Rose (H.send_faults host.old) (H.send_faults host.new)) }
        ensures on { GoesOn H.holds H.load_faults H.send_faults host.old host.new }
    {
        if at == CONSOLE_DATA {
            return self.byte(host, (value % 0x100) as u8);
        }
        if at >= CONSOLE_STATUS && at <= HALT {
            return Ok(());
        }
        self.show(host, Item::W { count, at, value })
    }

    // Tells what a step did, from what the processor holds after it; count is that before it.
    pub(crate) fn tell<H: Host>(
        &mut self,
        host: &mut H,
        count: u64,
        line: bool,
        did: Did,
        cpu: &Cpu,
    ) -> Result<(), SendError>
        requires { count + 1 < 2 ^ 64 }
        ensures tells { (bytes : Memory) → OnOk result (PutsBoth (H.sent host.old) (H.sent host.new) self.old.tty.items self.old.trace.items
            (console_bytes did) (told_items self.old.began line count did (core_of cpu.now bytes)) self.new.tty.items self.new.trace.items) }
        ensures began { OnOk result (self.new.began ≡ begun self.old.began did) }
        ensures breaks { OnErr result (BreaksOne (H.sent host.old) (H.sent host.new) self.old.tty.items self.old.trace.items) }
        ensures failed { OnErr result (Rose (H.send_faults host.old) (H.send_faults host.new)) }
        ensures on { GoesOn H.holds H.load_faults H.send_faults host.old host.new }
    {
        match did {
            Did::Plain => Ok(()),
            Did::Stopped(_) => Ok(()),
            Did::PortRead { at, value } => self.show(host, Item::R { count, at, value }),
            Did::PortWrite { at, value } => self.write(host, count, at, value),
            Did::Entered { code } => self.show(host, entry(count, code, line, cpu)),
            Did::Left => {
                let item = returned(count, self.began, cpu);
                self.began = true;
                self.line(host, item)
            }
        }
    }
}
