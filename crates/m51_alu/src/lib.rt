//! Arithmetic of the MCS-51 on bytes, with its flags.
#![tactic(auto)]

mod decimal;
mod laws;
mod product;
mod sum;

pub use decimal::{da, decimal_sum};
pub use laws::{
    differences_are_exact, parity_is_even, products_are_exact, quotients_are_exact, sums_are_exact,
};
pub use product::{div, mul, parity};
pub use sum::{Sum, add, subb};
