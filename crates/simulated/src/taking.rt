//! What a simulated device takes from the way in which its contents come back.
ghost use Rattle.std.specs.Prelude.{◌≡◌, false, slice_index_or};
ghost use Rattle.simulated.specs.Natures.{takes_new};

use device::comeback::Comeback;

/// Whether the word or sector with a number comes back at its present value.
pub fn takes_new(how: &Comeback, i: usize) -> bool
    ensures { result ≡ takes_new how.now i }
{
    match how {
        Comeback::Old => false,
        Comeback::New => true,
        Comeback::Chosen(marks) => marks.get(i).copied().unwrap_or(false),
    }
}
