//! The words of the crate in the kernel's block.
ghost use Rattle.std.specs.Prelude.{ℕ, ◌+◌};
ghost use Rattle.kern_layout.specs.BlockWords.{IsBlock};
ghost use Rattle.kern_layout.specs.declared.ranges.TheConstants.{PRINTF_CODE};
ghost use Rattle.kern_stay.specs.Words.{overlaid, EndsBy};
ghost use Rattle.kern_stay.specs.declared.places.TheConstants.{CACHED};
ghost use Rattle.kern_stay.specs.declared.room.TheConstants.{ROOM_NODES};
ghost use Rattle.kern_printf.specs.declared.places.TheConstants as place;
ghost use Rattle.kern_printf.specs.declared.format.TheConstants as format_is;
ghost use Rattle.kern_printf.specs.declared.conversion.TheConstants as conversion_is;
ghost use Rattle.kern_printf.specs.declared.kind.TheConstants as kind_is;
ghost use Rattle.kern_printf.specs.declared.number.TheConstants as number_is;
ghost use Rattle.kern_printf.specs.declared.text.TheConstants as text_is;
ghost use Rattle.kern_printf.specs.declared.padding.TheConstants as padding_is;
ghost use Rattle.kern_printf.specs.declared.emission.TheConstants as emission_is;
ghost use Rattle.abs_kernel.specs.Printf.{printf};
ghost use Rattle.kern_stay.specs.Doors.{most_steps};
ghost use Rattle.kern_stay.specs.Stages.{ServesIn};
ghost use Rattle.kern_printf.specs.Own.{own};
ghost use Rattle.kern_printf.specs.Parts.{parts};
ghost use Rattle.kern_printf.specs.PrintfLaws.{PrintfServes};
ghost use Rattle.kern_printf.specs.PrintfWords.{printf_pieces};

use crate::places::{
    ARGUMENT, BYTE, CONVERSION, COUNT, DIGITS, FILL, FLAG, FORMAT, KIND, LEFT, LENGTH, MEASURE,
    NULL_BYTES, NULL_TEXT, NUMBER, PADDING, PRECISION, PRINTF, RIGHT, ROOM, SIGN, TEXT, TEXT_BYTES,
    WIDTH, ZEROS,
};
use crate::{conversion, emission, format, kind, number, padding, text};
use kern_layout::KernelBlock;
use kern_stay::placing::put_listing;
use kern_stay::room::ROOM_NODES;

/// Writes the words of the listings at their addresses. Every other word stays.
pub fn place(block: &mut KernelBlock)
    ensures { (f : ℕ → ℕ) → IsBlock block.old f → IsBlock block.new (overlaid printf_pieces f) }
{
    put_listing(block, ROOM, &ROOM_NODES);
    put_listing(block, RIGHT, &padding::RIGHT_NODES);
    put_listing(block, NULL_BYTES, &emission::NULL_BYTES_NODES);
    put_listing(block, TEXT_BYTES, &emission::TEXT_BYTES_NODES);
    put_listing(block, DIGITS, &emission::DIGITS_NODES);
    put_listing(block, SIGN, &emission::SIGN_NODES);
    put_listing(block, LEFT, &padding::LEFT_NODES);
    put_listing(block, PADDING, &padding::PADDING_NODES);
    put_listing(block, MEASURE, &text::MEASURE_NODES);
    put_listing(block, NULL_TEXT, &text::NULL_TEXT_NODES);
    put_listing(block, TEXT, &text::TEXT_NODES);
    put_listing(block, BYTE, &number::BYTE_NODES);
    put_listing(block, ZEROS, &number::ZEROS_NODES);
    put_listing(block, COUNT, &number::COUNT_NODES);
    put_listing(block, FILL, &number::FILL_NODES);
    put_listing(block, NUMBER, &number::NUMBER_NODES);
    put_listing(block, ARGUMENT, &kind::ARGUMENT_NODES);
    put_listing(block, KIND, &kind::KIND_NODES);
    put_listing(block, LENGTH, &conversion::LENGTH_NODES);
    put_listing(block, PRECISION, &conversion::PRECISION_NODES);
    put_listing(block, WIDTH, &conversion::WIDTH_NODES);
    put_listing(block, FLAG, &conversion::FLAG_NODES);
    put_listing(block, CONVERSION, &conversion::CONVERSION_NODES);
    put_listing(block, FORMAT, &format::FORMAT_NODES);
    put_listing(block, PRINTF, &format::PRINTF_NODES);
}

/// Each listing ends where the next one begins, or before it, and all of them in the range of printf. It does nothing.
pub fn apart()
    ensures printf { EndsBy place.PRINTF format_is.PRINTF_NODES place.FORMAT }
    ensures format { EndsBy place.FORMAT format_is.FORMAT_NODES place.CONVERSION }
    ensures conversion { EndsBy place.CONVERSION conversion_is.CONVERSION_NODES place.FLAG }
    ensures flag { EndsBy place.FLAG conversion_is.FLAG_NODES place.WIDTH }
    ensures width { EndsBy place.WIDTH conversion_is.WIDTH_NODES place.PRECISION }
    ensures precision { EndsBy place.PRECISION conversion_is.PRECISION_NODES place.LENGTH }
    ensures length { EndsBy place.LENGTH conversion_is.LENGTH_NODES place.KIND }
    ensures kind { EndsBy place.KIND kind_is.KIND_NODES place.ARGUMENT }
    ensures argument { EndsBy place.ARGUMENT kind_is.ARGUMENT_NODES place.NUMBER }
    ensures number { EndsBy place.NUMBER number_is.NUMBER_NODES place.FILL }
    ensures fill { EndsBy place.FILL number_is.FILL_NODES place.COUNT }
    ensures count { EndsBy place.COUNT number_is.COUNT_NODES place.ZEROS }
    ensures zeros { EndsBy place.ZEROS number_is.ZEROS_NODES place.BYTE }
    ensures byte { EndsBy place.BYTE number_is.BYTE_NODES place.TEXT }
    ensures text { EndsBy place.TEXT text_is.TEXT_NODES place.NULL_TEXT }
    ensures null_text { EndsBy place.NULL_TEXT text_is.NULL_TEXT_NODES place.MEASURE }
    ensures measure { EndsBy place.MEASURE text_is.MEASURE_NODES place.PADDING }
    ensures padding { EndsBy place.PADDING padding_is.PADDING_NODES place.LEFT }
    ensures left { EndsBy place.LEFT padding_is.LEFT_NODES place.SIGN }
    ensures sign { EndsBy place.SIGN emission_is.SIGN_NODES place.DIGITS }
    ensures digits { EndsBy place.DIGITS emission_is.DIGITS_NODES place.TEXT_BYTES }
    ensures text_bytes { EndsBy place.TEXT_BYTES emission_is.TEXT_BYTES_NODES place.NULL_BYTES }
    ensures null_bytes { EndsBy place.NULL_BYTES emission_is.NULL_BYTES_NODES place.RIGHT }
    ensures right { EndsBy place.RIGHT padding_is.RIGHT_NODES place.ROOM }
    ensures room { EndsBy place.ROOM ROOM_NODES (CACHED + PRINTF_CODE.to) }
{}

/// The listings serve printf together. It does nothing.
pub fn serves()
    ensures { ServesIn own parts most_steps printf place.PRINTF }
{}

/// Where the words stand, printf is served by its listings. It does nothing.
pub fn printf_serves()
    ensures { PrintfServes }
{}
