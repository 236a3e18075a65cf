//! Laws of round texts: a function with nothing to do, whose contract is the laws.
#![tactic(auto)]

ghost use Rattle.std.specs.Prelude.{◌≡◌, Result};
ghost use Rattle.intake.specs.declared.TheConstants.{MAX_BYTES};
ghost use Rattle.intake.specs.Parts.{Parts, IsRoundParts};
ghost use Rattle.intake.specs.Lines.{round_text};
ghost use Rattle.intake.specs.Reading.{IsReading, IsReadBack};
ghost use Rattle.intake.specs.declared.round.RoundParts.{RoundParts};
ghost use Rattle.intake.specs.declared.round.RoundFault.{RoundFault};

/// No two parts have one text, and the text of parts is read as these parts.
pub fn round_law()
    ensures one { (p q : Parts) → IsRoundParts p → IsRoundParts q → round_text p ≡ round_text q → p ≡ q }

    // It is not too large, and no line of it is bad.
    ensures back { (p : Parts) (r : Result RoundParts RoundFault) → IsRoundParts p → IsReading (round_text p) r → IsReadBack p r }

    // The most bytes of a text.
    ensures limit { MAX_BYTES ≡ 524288 }
{}
