//! Laws of posted results: functions with nothing to do, whose contracts are the laws.
#![tactic(auto)]

ghost use Rattle.public_result.specs.Posted.{PostedIsBest, PostedIsBestByCodes, PostsAreAccepted, PricesServeAll};

use spa::code_law;

/// Where everybody's check and each student's own check accept, what is posted is best.
pub fn posted_law()
    ensures best { PostedIsBest }
    ensures by_codes { PostedIsBestByCodes }
{
    code_law();
}

/// What is posted of a matching that prices prove best is accepted by everybody's check and by each student's own.
pub fn accepted_law()
    ensures { PostsAreAccepted }
{}

/// Prices that prove one matching best prove each best matching: whoever solves a round anew may post its prices with what is kept.
pub fn any_law()
    ensures { PricesServeAll }
{}
