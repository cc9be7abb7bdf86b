//! The words of the entry in the kernel's block.
ghost use Rattle.std.specs.Prelude.{◌≡◌, ℕ, ◌+◌, ◌*◌, ◌/◌, ◌%◌, ◌^◌, ◌<◌, ◌≤◌, ◌++◌, ◌∷◌, [], IsTrue, List, length, map, slice_set};
ghost use Rattle.psx_flow.specs.Tree.{size};
ghost use Rattle.psx_flow.specs.Well.{is_well};
ghost use Rattle.psx_flow.specs.Spaced.{is_spaced};
ghost use Rattle.psx_flow.specs.Lowered.{reaches};
ghost use Rattle.kern_layout.specs.BlockWords.{IsBlock};
ghost use Rattle.kern_stay.specs.Words.{over, overlaid, EndsBy};
ghost use Rattle.kern_entry.specs.EntryWords.{gate, return_words, vector_pieces, entry_pieces, leave_pieces, copy_pieces, routine_pieces, work_pieces, frame_pieces, tested_pieces, code_pieces};
ghost use Rattle.psx_flow.specs.declared.listings.TheConstants as tested;
ghost use Rattle.kern_entry.specs.declared.places.TheConstants as place;
ghost use Rattle.kern_entry.specs.declared.save.TheConstants.{VECTOR_NODES, SAVE_NODES, CAUSES_NODES};
ghost use Rattle.kern_entry.specs.declared.interrupts.TheConstants.{INTERRUPTS_NODES};
ghost use Rattle.kern_entry.specs.declared.calls.TheConstants.{CALL_A_NODES, CALL_B_NODES, CALL_C_NODES, EXIT_NODES};
ghost use Rattle.kern_entry.specs.declared.stops.TheConstants.{UNSERVED_NODES, EXCEPTION_NODES, DONE_NODES, BAD_POINTER_NODES, BAD_THREAD_NODES, DEEP_NODES, BAD_RETURN_NODES};
ghost use Rattle.kern_entry.specs.declared.back.TheConstants.{BACK_NODES};
ghost use Rattle.kern_entry.specs.declared.push.TheConstants.{PUSH_NODES};
ghost use Rattle.kern_entry.specs.declared.take_up.TheConstants.{TAKE_UP_NODES};
ghost use Rattle.kern_stay.specs.declared.copy.TheConstants.{COPY_NODES};
ghost use Rattle.kern_stay.specs.declared.copy_half.TheConstants.{COPY_HALF_NODES};
ghost use Rattle.kern_entry.specs.declared.sys.TheConstants.{SYSCALLS_NODES};
ghost use Rattle.kern_entry.specs.declared.leave.TheConstants.{LEAVE_NODES, BEHIND_NODES, RESUME_NODES, RETURN};
ghost use Rattle.kern_entry.specs.declared.deliver.TheConstants.{DELIVER_NODES};
ghost use Rattle.kern_entry.specs.declared.work.TheConstants.{WORK_NODES};
ghost use Rattle.kern_entry.specs.declared.elements.TheConstants.{ELEMENTS_NODES};
ghost use Rattle.kern_entry.specs.declared.scan.TheConstants.{SCAN_NODES};

use crate::back::BACK_NODES;
use crate::calls::{CALL_A_NODES, CALL_B_NODES, CALL_C_NODES, EXIT_NODES};
use crate::deliver::DELIVER_NODES;
use crate::elements::ELEMENTS_NODES;
use crate::interrupts::INTERRUPTS_NODES;
use crate::leave::{BEHIND_NODES, LEAVE_NODES, RESUME_NODES, RETURN};
use crate::places::{
    BACK, BAD_POINTER, BAD_RETURN, BAD_THREAD, BEHIND, CACHED, CALL_A, CALL_B, CALL_C, CAUSES,
    COPY, COPY_HALF, DEEP, DELIVER, DONE, ELEMENTS, EXCEPTION, EXIT, INTERRUPTS, LEAVE, PUSH,
    READ_BYTE, READ_WORD, RESUME, SAVE, SCAN, SYSCALLS, TAKE_UP, UNSERVED, VECTOR, WORK,
    WRITE_BYTE, WRITE_WORD,
};
use crate::push::PUSH_NODES;
use crate::save::{CAUSES_NODES, SAVE_NODES, VECTOR_NODES};
use crate::scan::SCAN_NODES;
use crate::stops::{
    BAD_POINTER_NODES, BAD_RETURN_NODES, BAD_THREAD_NODES, DEEP_NODES, DONE_NODES, EXCEPTION_NODES,
    UNSERVED_NODES,
};
use crate::sys::SYSCALLS_NODES;
use crate::take_up::TAKE_UP_NODES;
use crate::work::WORK_NODES;
use kern_layout::KernelBlock;
use kern_layout::ranges::{GATE_A, GATE_B, GATE_BACK, GATE_C, GATE_DONE};
use kern_stay::copy::COPY_NODES;
use kern_stay::copy_half::COPY_HALF_NODES;
use kern_stay::placing::{put_listing, put_words};
use psx_flow::{listings, register};
use psx_ins::encode;
use psx_ins::ins::Ins;

fn put_gate(block: &mut KernelBlock, at: u32)
    requires aligned { at % 4 ≡ 0 }
    requires within { at < 0x10000 }
    ensures { (f : ℕ → ℕ) → IsBlock block.old f → IsBlock block.new (over at gate f) }
{
    put_words(block, at, &[encode(Ins::SYSCALL { code: 0 })]);
}

fn put_return(block: &mut KernelBlock, at: u32)
    requires aligned { at % 4 ≡ 0 }
    requires within { at + 8 ≤ 0x10000 }
    ensures { (f : ℕ → ℕ) → IsBlock block.old f → IsBlock block.new (over at return_words f) }
{
    let jump = encode(Ins::JR { s: register!(r26) });
    put_words(block, at, &[jump, encode(Ins::RFE)]);
}

/// Writes the vector and the gates. Every other word stays.
pub fn place_vector(block: &mut KernelBlock)
    ensures { (f : ℕ → ℕ) → IsBlock block.old f → IsBlock block.new (overlaid vector_pieces f) }
{
    put_gate(block, GATE_BACK.from);
    put_gate(block, GATE_DONE.from);
    put_gate(block, GATE_C.from);
    put_gate(block, GATE_B.from);
    put_gate(block, GATE_A.from);
    put_listing(block, VECTOR, &VECTOR_NODES);
}

fn place_entry(block: &mut KernelBlock)
    ensures { (f : ℕ → ℕ) → IsBlock block.old f → IsBlock block.new (overlaid entry_pieces f) }
{
    put_listing(block, EXCEPTION, &EXCEPTION_NODES);
    put_listing(block, UNSERVED, &UNSERVED_NODES);
    put_listing(block, CALL_C, &CALL_C_NODES);
    put_listing(block, CALL_B, &CALL_B_NODES);
    put_listing(block, CALL_A, &CALL_A_NODES);
    put_listing(block, INTERRUPTS, &INTERRUPTS_NODES);
    put_listing(block, CAUSES, &CAUSES_NODES);
    put_listing(block, SAVE, &SAVE_NODES);
}

fn place_leave(block: &mut KernelBlock)
    ensures { (f : ℕ → ℕ) → IsBlock block.old f → IsBlock block.new (overlaid leave_pieces f) }
{
    put_return(block, RETURN - CACHED);
    put_listing(block, RESUME, &RESUME_NODES);
    put_listing(block, BEHIND, &BEHIND_NODES);
    put_listing(block, LEAVE, &LEAVE_NODES);
}

fn place_routines(block: &mut KernelBlock)
    ensures { (f : ℕ → ℕ) → IsBlock block.old f → IsBlock block.new (overlaid routine_pieces f) }
{
    put_listing(block, BAD_RETURN, &BAD_RETURN_NODES);
    put_listing(block, DEEP, &DEEP_NODES);
    put_listing(block, BAD_THREAD, &BAD_THREAD_NODES);
    put_listing(block, BAD_POINTER, &BAD_POINTER_NODES);
    put_listing(block, DELIVER, &DELIVER_NODES);
    put_listing(block, SYSCALLS, &SYSCALLS_NODES);
    put_listing(block, BACK, &BACK_NODES);
    put_listing(block, DONE, &DONE_NODES);
    put_listing(block, EXIT, &EXIT_NODES);
}

fn place_work(block: &mut KernelBlock)
    ensures { (f : ℕ → ℕ) → IsBlock block.old f → IsBlock block.new (overlaid work_pieces f) }
{
    put_listing(block, SCAN, &SCAN_NODES);
    put_listing(block, ELEMENTS, &ELEMENTS_NODES);
    put_listing(block, WORK, &WORK_NODES);
}

fn place_frames(block: &mut KernelBlock)
    ensures { (f : ℕ → ℕ) → IsBlock block.old f → IsBlock block.new (overlaid frame_pieces f) }
{
    put_listing(block, TAKE_UP, &TAKE_UP_NODES);
    put_listing(block, PUSH, &PUSH_NODES);
}

fn place_copies(block: &mut KernelBlock)
    ensures { (f : ℕ → ℕ) → IsBlock block.old f → IsBlock block.new (overlaid copy_pieces f) }
{
    put_listing(block, COPY, &COPY_NODES);
    put_listing(block, COPY_HALF, &COPY_HALF_NODES);
}

fn place_tested(block: &mut KernelBlock)
    ensures { (f : ℕ → ℕ) → IsBlock block.old f → IsBlock block.new (overlaid tested_pieces f) }
{
    put_listing(block, WRITE_WORD, &listings::WRITE_WORD);
    put_listing(block, READ_WORD, &listings::READ_WORD);
    put_listing(block, WRITE_BYTE, &listings::WRITE_BYTE);
    put_listing(block, READ_BYTE, &listings::READ_BYTE);
}

/// Writes the words of the entry's listings at their addresses, and the two words that leave the kernel. Every other word stays.
pub fn place_code(block: &mut KernelBlock)
    ensures { (f : ℕ → ℕ) → IsBlock block.old f → IsBlock block.new (overlaid code_pieces f) }
{
    place_tested(block);
    place_frames(block);
    place_work(block);
    place_routines(block);
    place_copies(block);
    place_leave(block);
    place_entry(block);
}

/// Each listing ends where the next one begins, or before it, and all of them in the entry's range. It does nothing.
pub fn apart()
    ensures vector { EndsBy place.VECTOR VECTOR_NODES 0x800000A0 }
    ensures save { EndsBy place.SAVE SAVE_NODES place.CAUSES }
    ensures causes { EndsBy place.CAUSES CAUSES_NODES place.INTERRUPTS }
    ensures interrupts { EndsBy place.INTERRUPTS INTERRUPTS_NODES place.CALL_A }
    ensures call_a { EndsBy place.CALL_A CALL_A_NODES place.CALL_B }
    ensures call_b { EndsBy place.CALL_B CALL_B_NODES place.CALL_C }
    ensures call_c { EndsBy place.CALL_C CALL_C_NODES place.UNSERVED }
    ensures unserved { EndsBy place.UNSERVED UNSERVED_NODES place.EXCEPTION }
    ensures exception { EndsBy place.EXCEPTION EXCEPTION_NODES place.LEAVE }
    ensures leave { EndsBy place.LEAVE LEAVE_NODES place.BEHIND }
    ensures behind { EndsBy place.BEHIND BEHIND_NODES place.RESUME }
    ensures resume { EndsBy place.RESUME RESUME_NODES RETURN }
    ensures return_words { RETURN + 8 ≤ place.COPY_HALF }
    ensures copy_half { EndsBy place.COPY_HALF COPY_HALF_NODES place.COPY }
    ensures copy { EndsBy place.COPY COPY_NODES place.EXIT }
    ensures exit { EndsBy place.EXIT EXIT_NODES place.DONE }
    ensures done { EndsBy place.DONE DONE_NODES place.BACK }
    ensures back { EndsBy place.BACK BACK_NODES place.SYSCALLS }
    ensures syscalls { EndsBy place.SYSCALLS SYSCALLS_NODES place.DELIVER }
    ensures deliver { EndsBy place.DELIVER DELIVER_NODES place.BAD_POINTER }
    ensures bad_pointer { EndsBy place.BAD_POINTER BAD_POINTER_NODES place.BAD_THREAD }
    ensures bad_thread { EndsBy place.BAD_THREAD BAD_THREAD_NODES place.DEEP }
    ensures deep { EndsBy place.DEEP DEEP_NODES place.BAD_RETURN }
    ensures bad_return { EndsBy place.BAD_RETURN BAD_RETURN_NODES place.WORK }
    ensures work { EndsBy place.WORK WORK_NODES place.ELEMENTS }
    ensures elements { EndsBy place.ELEMENTS ELEMENTS_NODES place.SCAN }
    ensures scan { EndsBy place.SCAN SCAN_NODES place.PUSH }
    ensures push { EndsBy place.PUSH PUSH_NODES place.TAKE_UP }
    ensures take_up { EndsBy place.TAKE_UP TAKE_UP_NODES place.READ_BYTE }
    ensures read_byte { EndsBy place.READ_BYTE tested.READ_BYTE place.WRITE_BYTE }
    ensures write_byte { EndsBy place.WRITE_BYTE tested.WRITE_BYTE place.READ_WORD }
    ensures read_word { EndsBy place.READ_WORD tested.READ_WORD place.WRITE_WORD }
    ensures write_word { EndsBy place.WRITE_WORD tested.WRITE_WORD 0x80002000 }
{}
