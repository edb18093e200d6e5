//! What an image has.
use sr_cell::attrs::Attrs;
use sr_store::start::Kepts;

/// Which part of what is held.
#[derive(Clone, Copy)]
pub(crate) struct Head {
    pub(crate) table: u8,
    pub(crate) attrs: Attrs,
}

/// What a client holds, at its version.
#[derive(Drop)]
pub struct Image {
    pub version: u64,
    pub kept: Kepts,
}

/// Why bytes are no image over a schema. Magic: they begin otherwise. Short, Left: there are fewer or more than the image says.
/// Schema: its tables are others. Field: a field or item breaks its rule, leaves the image or is left over; the first byte of
/// the first one is at that place, counted from the image's first byte.
#[derive(Clone, Copy, Debug, PartialEq, Eq)]
pub enum ImageFault {
    Magic,
    Short,
    Left,
    Schema,
    Field { place: u64 },
}
