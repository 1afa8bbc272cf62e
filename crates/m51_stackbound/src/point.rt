//! Points: where control may be, and how high the stack is then.
use m51_module::Start;

/// A start, an address and a height. For the reset the height is SP; for another start it is how far SP is above the
/// return address of the start's call.
///
/// Source: own choice ("Stack bound").
#[derive(Clone, Copy, Debug, PartialEq, Eq, Hash)]
pub struct Point {
    pub start: Start,
    pub address: u16,
    /// 0 to 255.
    pub height: u8,
}

/// A start and an address.
///
/// Source: own choice ("Stack bound").
#[derive(Clone, Copy, Debug, PartialEq, Eq, Hash)]
pub(crate) struct ReachedAddress {
    pub start: Start,
    pub address: u16,
}
