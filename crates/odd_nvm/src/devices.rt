//! A memory with a buffer of one word.
ghost use Rattle.std.specs.Prelude.{◌≡◌, ◌%◌, ◌<◌, vec_len};
ghost use Rattle.std.specs.Option.{ForSome};

/// A word in the buffer, with its settled value.
#[derive(Clone, Copy)]
pub(crate) struct Held {
    pub(crate) word: usize,
    pub(crate) old: u64,
}

/// Only the word that was stored last can be unsettled: a store settles the one before it, a flush of its line settles it at
/// once, and a fence settles nothing, since nothing is ever flushed. It never turns dark.
#[derive(Drop)]
pub struct BufferedNvm {
    pub(crate) words: Vec<u64>,
    pub(crate) buffer: Option<Held>,
    ghost whole: { vec_len words % 32 ≡ 0 },
    ghost near: { ForSome buffer (λ h. h.word < vec_len words) },
}
