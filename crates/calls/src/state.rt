//! The states of a store.

/// A store is unmounted, idle, or has an open transaction.
#[derive(Clone, Copy, PartialEq, Eq, Debug)]
pub enum State {
    Unmounted,
    Idle,
    Open,
}
