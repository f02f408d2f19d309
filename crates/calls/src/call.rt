//! The calls of a store.

/// A call of a store of records of the type `R`; records go by their numbers.
#[derive(Drop)]
pub enum Call<R> {
    Format,
    Mount,
    Begin,
    Set(u64, R),
    Clear(u64),
    Read(u64),
    Commit,
    Abandon,
    Checkpoint,
    Close,
}
