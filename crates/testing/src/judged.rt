//! What is compared.

ghost use Rattle.std.specs.Prelude.{◌≡◌, IfOk, IsTrue, Ok};

use std::test::Fail;

/// Fails the test with a row of a table, or a step that is named, where what is compared in it does not hold.
pub fn holds(is_well: bool, row: &str) -> Result<(), Fail>
    ensures { IfOk result (λ _. IsTrue is_well) }
{
    if is_well { Ok(()) } else { Err(Fail::new(row)) }
}

/// Returns what went well; else the test fails, and says what did not.
pub fn well<T, E: Drop>(outcome: Result<T, E>, step: &'static str) -> Result<T, Fail>
    ensures { IfOk result (λ value. outcome ≡ Ok value) }
{
    match outcome {
        Ok(value) => Ok(value),
        Err(_) => Err(Fail::new(step)),
    }
}
