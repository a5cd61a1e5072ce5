//! Fixed-point numbers, the two roundings, and products divided without a loss.
#![tactic(auto)]

mod decimal;
mod number;
mod plane;
mod rounding;

pub use decimal::{NumberFault, decimal_law, parse_fix16, parse_whole};
pub use number::Fix;
pub use plane::Pair;
pub use rounding::{divide_down, divide_up, mul_div_down, mul_div_up, scale};
