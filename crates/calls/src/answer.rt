//! The answers of a store.
use refusal::reason::Refusal;

/// What a call of a store answers.
// Kept: one list of cases, as the definitions go through it case by case; a Result would part it in two, with two names for each case.
#[derive(Drop)]
pub enum Answer<R> {
    /// The call is refused.
    Refused(Refusal),
    /// Format, begin, set, clear, abandon and close are done.
    Done,
    /// A commit is done; so many places of the ring are used then.
    Used(usize),
    /// A mount or a checkpoint is done; so many blocks were written.
    Blocks(usize),
    /// There is no record with this number.
    Absent,
    /// The record with this number.
    Found(R),
}
