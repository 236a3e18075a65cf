//! What the cells of a row stand for.

ghost use Rattle.std.specs.Prelude.{◌≡◌};
ghost use Rattle.office.specs.from_rows.Inside.Decoded.{aim_of, flag_in, kind_in};

use office_model::ImportKind;
use spa::Aim;

/// Returns the truth value of a number.
pub(crate) fn flag_in(number: u32) -> Option<bool>
    ensures { result ≡ flag_in number }
{
    match number {
        0 => Some(false),
        1 => Some(true),
        _ => None,
    }
}

/// Returns the aim of a truth value: whether it is the generous one.
pub(crate) fn aim_of(generous: bool) -> Aim
    ensures { result ≡ aim_of generous }
{
    if generous { Aim::Generous } else { Aim::Greedy }
}

/// Returns the kind of imports of a word.
pub(crate) fn kind_in(word: &str) -> Option<ImportKind>
    ensures { result ≡ kind_in word.now }
{
    match word {
        "supervisors" => Some(ImportKind::Supervisors),
        "projects" => Some(ImportKind::Projects),
        "students" => Some(ImportKind::Students),
        "lists" => Some(ImportKind::Lists),
        _ => None,
    }
}
