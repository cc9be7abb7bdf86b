//! The errors by which the calls on files refuse, as GetLastError answers them.

/// The number names no file that is open for what is asked.
pub const BAD_FILE: u16 = 9;

/// The name is no device's.
pub const NO_DEVICE: u16 = 19;

/// The mode is none.
pub const BAD_MODE: u16 = 22;

/// All files are open.
pub const NO_FILE_LEFT: u16 = 24;
