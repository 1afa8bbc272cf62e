//! Return records.
use m51_flat::Source;

/// Why a return record was made.
///
/// Source: own choice ("Activations").
#[derive(Clone, Copy, Debug, PartialEq, Eq)]
pub(crate) enum Cause {
    /// A call.
    Call,
    /// An interrupt of this source, whose root is the unit that begins at the source's vector.
    Interrupt(Source),
}

/// A return record, but for its units, which are those after the units of the records below it.
///
/// Source: own choice ("Activations").
#[derive(Clone, Copy, Debug, PartialEq, Eq)]
pub(crate) struct ReturnFrame {
    pub cause: Cause,
    /// The return address.
    pub return_address: u16,
    /// SP after the return address was pushed.
    pub sp: u8,
    /// How many units the records below name.
    pub start: usize,
}
