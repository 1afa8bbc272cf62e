//! Calls that are made for their clauses.

/// Does nothing with a value. `cite(layout.units())` makes a call of which only the clauses are needed: after it, a
/// proof has what they say of the layout.
#[inline(always)]
pub fn cite<T: Copy>(_value: T) {}
