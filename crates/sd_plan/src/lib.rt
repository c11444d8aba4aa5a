//! Plans of calls that fail, for devices and stores in memory.
#![tactic(auto)]

mod call;
mod fail;
mod kind;
mod plan;

pub use call::{Call, DriveFail};
pub use fail::{Fail, When, part};
pub use kind::{Kind, MOST_KINDS};
pub use plan::Plan;
