//! What bases of modules refer to.
use crate::JoinedNumber;

/// What a base refers to: a number that counts from the beginning of a part, or from nothing.
///
/// Source: own choice ("Names that are resolved").
#[derive(Clone, Copy, Debug, PartialEq, Eq)]
pub struct Referent {
    /// The joined segment of the part, and the offset of the part in it, in bytes, for BIT in bits; or nothing.
    pub part: Option<(JoinedNumber, u16)>,
    /// What is counted from there: 0 for a segment, for an external the number of its public.
    pub number: u16,
}
