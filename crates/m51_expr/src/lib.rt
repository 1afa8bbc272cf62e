//! Reads the expressions of an assembler line as trees, gives their values, and says what operands of instructions are.
#![tactic(auto)]

mod bits;
mod evaluating;
mod fault;
mod laws;
mod located;
mod looks;
mod lookup;
mod operand;
mod operators;
mod places;
mod ranks;
mod reading;
mod symbol;
mod tree;
mod value;
mod words;

pub use evaluating::{located_value_of, value_of};
pub use fault::{ExprError, ReadError};
pub use laws::values_fail_by_four;
pub use located::{Located, Origin, SegmentNumber, counted, plain};
pub use looks::{has_form, look_of};
pub use lookup::Lookup;
pub use m51_cells::Base;
pub use operand::{Item, Items, Operand, Operands};
pub use places::{Places, as_number, is_absolute_origin, is_unplaced_origin};
pub use ranks::{is_close, is_open};
pub use reading::{read_expr, read_symbols};
pub use symbol::{Symbol, symbols, symbols_into};
pub use tree::{Binary, Expr, Unary};
pub use value::{Part, Value, is_whole};
pub use words::{BANK_REGISTERS, is_reserved};
