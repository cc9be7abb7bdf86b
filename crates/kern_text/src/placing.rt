//! The words of the crate in the kernel's block.
ghost use Rattle.std.specs.Prelude.{ℕ, ◌+◌};
ghost use Rattle.kern_layout.specs.BlockWords.{IsBlock};
ghost use Rattle.kern_layout.specs.declared.ranges.TheConstants.{TEXT_CODE};
ghost use Rattle.kern_stay.specs.Words.{overlaid, EndsBy};
ghost use Rattle.kern_stay.specs.declared.places.TheConstants.{CACHED};
ghost use Rattle.kern_stay.specs.declared.room.TheConstants.{ROOM_NODES};
ghost use Rattle.kern_text.specs.declared.places.TheConstants as place;
ghost use Rattle.kern_text.specs.declared.a1b_strlen.TheConstants as strlen;
ghost use Rattle.kern_text.specs.declared.a25_toupper.TheConstants as toupper;
ghost use Rattle.kern_text.specs.declared.a26_tolower.TheConstants as tolower;
ghost use Rattle.kern_text.specs.declared.a19_strcpy.TheConstants as strcpy;
ghost use Rattle.kern_text.specs.declared.a15_strcat.TheConstants as strcat;
ghost use Rattle.kern_text.specs.declared.a16_strncat.TheConstants as strncat;
ghost use Rattle.kern_text.specs.declared.a1a_strncpy.TheConstants as strncpy;
ghost use Rattle.kern_text.specs.declared.a17_strcmp.TheConstants as strcmp;
ghost use Rattle.kern_text.specs.declared.a18_strncmp.TheConstants as strncmp;
ghost use Rattle.kern_text.specs.declared.a1e_strchr.TheConstants as strchr;
ghost use Rattle.kern_text.specs.declared.a1f_strrchr.TheConstants as strrchr;
ghost use Rattle.kern_text.specs.declared.skip.TheConstants as skip;
ghost use Rattle.kern_text.specs.declared.a20_strpbrk.TheConstants as strpbrk;
ghost use Rattle.kern_text.specs.declared.a21_strspn.TheConstants as strspn;
ghost use Rattle.kern_text.specs.declared.a22_strcspn.TheConstants as strcspn;
ghost use Rattle.kern_text.specs.declared.a23_strtok.TheConstants as strtok;
ghost use Rattle.kern_text.specs.declared.a24_strstr.TheConstants as strstr;
ghost use Rattle.kern_text.specs.declared.a0e_abs.TheConstants as abs;
ghost use Rattle.kern_text.specs.declared.blanks.TheConstants as blanks;
ghost use Rattle.kern_text.specs.declared.prefix.TheConstants as prefix;
ghost use Rattle.kern_text.specs.declared.digits.TheConstants as digits;
ghost use Rattle.kern_text.specs.declared.a0d_strtol.TheConstants as strtol;
ghost use Rattle.kern_text.specs.declared.a10_atoi.TheConstants as atoi;
ghost use Rattle.kern_text.specs.TextWords.{text_pieces};
ghost use Rattle.kern_text.specs.TextLaws.{TextServes};

use crate::places::{
    ABS, ATOI, BLANKS, DIGITS, PREFIX, ROOM, SKIP, STRCAT, STRCHR, STRCMP, STRCPY, STRCSPN, STRLEN,
    STRNCAT, STRNCMP, STRNCPY, STRPBRK, STRRCHR, STRSPN, STRSTR, STRTOK, STRTOL, TOLOWER, TOUPPER,
};
use crate::{
    a0d_strtol, a0e_abs, a1a_strncpy, a1b_strlen, a1e_strchr, a1f_strrchr, a10_atoi, a15_strcat,
    a16_strncat, a17_strcmp, a18_strncmp, a19_strcpy, a20_strpbrk, a21_strspn, a22_strcspn,
    a23_strtok, a24_strstr, a25_toupper, a26_tolower, blanks, digits, prefix, skip,
};
use kern_layout::KernelBlock;
use kern_stay::placing::put_listing;
use kern_stay::room::ROOM_NODES;

/// Writes the words of the listings at their addresses. Every other word stays.
pub fn place(block: &mut KernelBlock)
    ensures { (f : ℕ → ℕ) → IsBlock block.old f → IsBlock block.new (overlaid text_pieces f) }
{
    put_listing(block, ATOI, &a10_atoi::NODES);
    put_listing(block, STRTOL, &a0d_strtol::NODES);
    put_listing(block, DIGITS, &digits::DIGITS_NODES);
    put_listing(block, PREFIX, &prefix::PREFIX_NODES);
    put_listing(block, BLANKS, &blanks::BLANKS_NODES);
    put_listing(block, ABS, &a0e_abs::NODES);
    put_listing(block, STRSTR, &a24_strstr::NODES);
    put_listing(block, STRTOK, &a23_strtok::NODES);
    put_listing(block, STRCSPN, &a22_strcspn::NODES);
    put_listing(block, STRSPN, &a21_strspn::NODES);
    put_listing(block, STRPBRK, &a20_strpbrk::NODES);
    put_listing(block, SKIP, &skip::SKIP_NODES);
    put_listing(block, STRRCHR, &a1f_strrchr::NODES);
    put_listing(block, STRCHR, &a1e_strchr::NODES);
    put_listing(block, STRNCMP, &a18_strncmp::NODES);
    put_listing(block, STRCMP, &a17_strcmp::NODES);
    put_listing(block, STRNCPY, &a1a_strncpy::NODES);
    put_listing(block, STRNCAT, &a16_strncat::NODES);
    put_listing(block, STRCAT, &a15_strcat::NODES);
    put_listing(block, STRCPY, &a19_strcpy::NODES);
    put_listing(block, TOLOWER, &a26_tolower::NODES);
    put_listing(block, TOUPPER, &a25_toupper::NODES);
    put_listing(block, ROOM, &ROOM_NODES);
    put_listing(block, STRLEN, &a1b_strlen::NODES);
}

/// Each listing ends where the next one begins, or before it, and all of them in the range of the text calls. It does nothing.
pub fn apart()
    ensures strlen { EndsBy place.STRLEN strlen.NODES place.ROOM }
    ensures room { EndsBy place.ROOM ROOM_NODES place.TOUPPER }
    ensures toupper { EndsBy place.TOUPPER toupper.NODES place.TOLOWER }
    ensures tolower { EndsBy place.TOLOWER tolower.NODES place.STRCPY }
    ensures strcpy { EndsBy place.STRCPY strcpy.NODES place.STRCAT }
    ensures strcat { EndsBy place.STRCAT strcat.NODES place.STRNCAT }
    ensures strncat { EndsBy place.STRNCAT strncat.NODES place.STRNCPY }
    ensures strncpy { EndsBy place.STRNCPY strncpy.NODES place.STRCMP }
    ensures strcmp { EndsBy place.STRCMP strcmp.NODES place.STRNCMP }
    ensures strncmp { EndsBy place.STRNCMP strncmp.NODES place.STRCHR }
    ensures strchr { EndsBy place.STRCHR strchr.NODES place.STRRCHR }
    ensures strrchr { EndsBy place.STRRCHR strrchr.NODES place.SKIP }
    ensures skip { EndsBy place.SKIP skip.SKIP_NODES place.STRPBRK }
    ensures strpbrk { EndsBy place.STRPBRK strpbrk.NODES place.STRSPN }
    ensures strspn { EndsBy place.STRSPN strspn.NODES place.STRCSPN }
    ensures strcspn { EndsBy place.STRCSPN strcspn.NODES place.STRTOK }
    ensures strtok { EndsBy place.STRTOK strtok.NODES place.STRSTR }
    ensures strstr { EndsBy place.STRSTR strstr.NODES place.ABS }
    ensures abs { EndsBy place.ABS abs.NODES place.BLANKS }
    ensures blanks { EndsBy place.BLANKS blanks.BLANKS_NODES place.PREFIX }
    ensures prefix { EndsBy place.PREFIX prefix.PREFIX_NODES place.DIGITS }
    ensures digits { EndsBy place.DIGITS digits.DIGITS_NODES place.STRTOL }
    ensures strtol { EndsBy place.STRTOL strtol.NODES place.ATOI }
    ensures atoi { EndsBy place.ATOI atoi.NODES (CACHED + TEXT_CODE.to) }
{}

/// Where the words stand, each call is served by its listing. It does nothing.
pub fn text_serves()
    ensures { TextServes }
{}
