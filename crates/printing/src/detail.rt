//! What a line says beside the answer.
use joined::record::Joined;

/// The last field or fields of a line.
#[derive(Clone, Copy)]
pub enum Detail {
    /// There is nothing to say.
    Nothing,
    /// A count of places or of blocks.
    Count(u64),
    /// There is no such record.
    Absent,
    /// The record that was read.
    Record(Joined),
}
