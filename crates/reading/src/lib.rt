//! Reading a text whose length has a limit.
#![tactic(auto)]

ghost use Rattle.std.specs.Prelude.{◌≡◌, ◌+◌, ◌^◌, ◌<◌, take, IfSome, OnOk, IfOk};

#[cfg(test)]
mod tests;

use std::alloc::Global;
use std::io;
use std::io::Read;

/// All that a reader gives, or of more than `most` bytes the first `most` and one more, which shows that there are too many.
pub fn read_past<R: Read + Drop>(heap: Global, reader: R, most: usize) -> io::Result<Vec<u8>>
    requires { most + 1 < 2 ^ 64 }
    ensures { IfOk result (λ text. IfSome (R.remaining reader) (λ given. text.items ≡ take (most + 1) given)) }
{
    let mut text = Vec::new(heap);
    let _ = reader.take(most as u64 + 1).read_to_end(&mut text)?;
    Ok(text)
}
