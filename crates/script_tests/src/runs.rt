//! Running a script, and looking at what it prints.
use fresh::run_fresh;
use std::alloc::Global;
use std::test::Fail;

/// Whether a script prints just this.
pub fn prints(heap: Global, input: &[u8], expected: &[u8]) -> Result<bool, Fail> {
    let output = run_fresh(heap, input)?;
    Ok(output.as_slice() == expected)
}

/// Whether the output of a script ends with this.
pub fn ends_with(heap: Global, input: &[u8], tail: &[u8]) -> Result<bool, Fail> {
    let output = run_fresh(heap, input)?;
    Ok(output.as_slice().ends_with(tail))
}
