//! What every device that holds volumes promises, said once, so that everything above is proved for every device.
//!
//! Code that keeps facts of its device takes it as a type parameter, `D: Driver`, since no type can name what
//! a boxed driver means. Drivers of several kinds in one place are an enum that implements `Driver` by a
//! `match`. Code that only calls a device can take a `Box<dyn Driver + Drop>`, which is a driver too.
#![tactic(auto)]

mod boxed;
mod driver;
mod laws;

pub use driver::{Driver, DriverFault};
pub use laws::{
    lasting_bounds_low_mark, lasting_bytes_still_last, stop_leaves_what_lasted, synced_bytes_last,
};
