//! The calls on texts of user memory and on characters. Each routine's listing stands in a file of its own, with its theorem.
#![tactic(auto)]

pub mod a0d_strtol;
pub mod a0e_abs;
pub mod a10_atoi;
pub mod a15_strcat;
pub mod a16_strncat;
pub mod a17_strcmp;
pub mod a18_strncmp;
pub mod a19_strcpy;
pub mod a1a_strncpy;
pub mod a1b_strlen;
pub mod a1e_strchr;
pub mod a1f_strrchr;
pub mod a20_strpbrk;
pub mod a21_strspn;
pub mod a22_strcspn;
pub mod a23_strtok;
pub mod a24_strstr;
pub mod a25_toupper;
pub mod a26_tolower;
pub mod blanks;
pub mod copy_laws;
pub mod digits;
pub mod laws;
pub mod number_laws;
pub mod places;
pub mod placing;
pub mod prefix;
pub mod skip;
pub mod token_laws;

pub use placing::place;
