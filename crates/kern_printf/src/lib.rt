//! printf. It is made of listings that go on at one another without returning: each takes one step of the walk over the format. What the next one may rest on is said by that one's interface (`specs/Interfaces.antt`); r8 to r13, r15, r31, HI and LO are for each listing's own use where the table doesn't name them.
//!
//! | registers | what they have |
//! |---|---|
//! | r4, r14 | the address of the format's byte that comes, and where its user memory ends |
//! | r5, r6, r7, r29 | the caller's arguments and stack pointer, unchanged |
//! | r16, r17 | how many arguments were taken, and how many bytes were written, modulo 2^32 |
//! | r26 | the ports |
//! | r18, r19 | within a conversion: whether the flag `-` was read, and whether the flag `0` was |
//! | r20 | its width, at most 255 |
//! | r21, r22 | its precision, at most 255, and whether there is one |
//! | r23 | where its next byte is taken |
//! | r24, r25 | of a number: its base, and the letter of its digits above 9, less 10 |
//! | r15 | whether it has a sign; then whether the byte of r8 stands before it |
//! | r9 | the argument |
//! | r30 | where the argument is for; then where the text is written |
//! | r12 | the byte that was read; then the length of the text |
//! | r13, r20 | how many spaces are to come before the text, and behind it |
//! | r19 | how many zeros are to come before the digits |
//! | r10, r11 | how many digits or bytes are to come, and the power of the base for the first digit |
#![tactic(auto)]

pub mod conversion;
pub mod emission;
pub mod format;
pub mod kind;
pub mod number;
pub mod padding;
pub mod places;
pub mod placing;
pub mod text;

pub use placing::place;
