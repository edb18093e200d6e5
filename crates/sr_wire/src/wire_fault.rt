//! Why bytes are no frame.

/// What stands against a frame at the front of bytes. Short: more bytes are wanted. Long: its length is above the limit. Kind: no
/// message has that kind. Field: a field or item breaks its rule, leaves the frame or is left over; the first byte of the first one
/// is at that place, counted from the frame's start.
#[derive(Clone, Copy, Debug, PartialEq, Eq)]
pub enum WireFault {
    Short,
    Long { length: u32 },
    Kind { byte: u8 },
    Field { place: u32 },
}
