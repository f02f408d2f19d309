//! How the contents of a simulated device come back.

/// How the unsettled words or the waiting sectors of a simulated device come back when power returns. A real device does as
/// it does, and looks at none of this.
#[derive(Drop)]
pub enum Comeback {
    /// Each at its settled value.
    Old,
    /// Each at its present value.
    New,
    /// The word or sector with number i at its present value where element i is true, else, and past the end, at its settled one.
    Chosen(Vec<bool>),
}
