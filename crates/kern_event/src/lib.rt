//! The calls on events, and on the chains of interrupt handlers. Each routine's listing stands in a file of its own, with its theorem.
#![tactic(auto)]

pub mod b07_deliver_event;
pub mod b08_open_event;
pub mod b09_close_event;
pub mod b0a_wait_event;
pub mod b0b_test_event;
pub mod b20_undeliver_event;
pub mod c02_sys_enq_int_rp;
pub mod c03_sys_deq_int_rp;
pub mod delivery_laws;
pub mod laws;
pub mod places;
pub mod placing;

pub use placing::place;
