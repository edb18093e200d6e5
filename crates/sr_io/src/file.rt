//! Files in memory.
use sr_cell::list::{Bytes, Seq};
use sr_cell::text::Text;

/// A name and what is held under it.
#[derive(Drop)]
pub struct File {
    pub name: Text,
    pub bytes: Bytes,
}

/// The files of a host in memory. Of two of one name the first counts.
pub type FileList = Seq<File>;
