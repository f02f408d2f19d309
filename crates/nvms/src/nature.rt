//! What tells the simulated memories apart: how many lines may hold unsettled words.
ghost use Rattle.std.specs.Prelude.{◌≡◌, ℕ, ◌<◌, Some, None, Option, IfSome};
ghost use Rattle.std.proofs.Common.{rules, arith};

/// How many lines of a memory may hold unsettled words at once.
pub trait Nature {
    // The greatest number, if there is one.
    ghost limit: { Option ℕ };

    /// The greatest number, if there is one.
    fn limit() -> Option<usize>
        ensures { result ≡ limit };

    // There is room for a line.
    ghost room: { IfSome limit (λ most. 0 < most) };
}

/// Any number: the patient memory settles at fences only.
#[derive(Clone, Copy)]
pub struct Patient;

impl Nature for Patient {
    ghost limit = { None };

    ghost room = { Prim.search rules };

    fn limit() -> Option<usize> {
        None
    }
}

/// At most eight.
#[derive(Clone, Copy)]
pub struct EightLine;

impl Nature for EightLine {
    ghost limit = { Some 8 };

    ghost room = { Prim.omega arith };

    fn limit() -> Option<usize> {
        Some(8)
    }
}
