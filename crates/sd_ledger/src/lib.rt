//! A list that only grows, of which nothing is held, and tokens that show of its entries that they are in it.
#![tactic(auto)]

mod known;
mod ledger;

pub use known::Known;
pub use ledger::{Ledger, Token};
