//! The calls on root counters. Each routine's listing stands with its theorem; enable_timer_irq and disable_timer_irq share a file.
#![tactic(auto)]

pub mod b02_init_timer;
pub mod b03_get_timer;
pub mod b04_enable_timer_irq;
pub mod b06_restart_timer;
pub mod laws;
pub mod places;
pub mod placing;

pub use placing::place;
