//! The values of tags.
use lx_base::Sequence;

/// The value of a tag. Offsets count code units from the start.
#[derive(Drop)]
pub enum TagValue {
    /// That of an s-tag, or of an end of a group: an offset, or none.
    Single(Option<u64>),
    /// That of an m-tag: all its offsets, in order.
    History(Sequence<Option<u64>>),
}

/// The values of a rule's tags and group ends, in the order of their numbers.
pub type Values = Sequence<TagValue>;
