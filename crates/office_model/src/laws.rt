//! Laws that the words of the contracts keep: functions with nothing to do, whose contracts are the laws.

ghost use Rattle.std.specs.Prelude.{◌≡◌};
ghost use Rattle.office_model.specs.Common.{MAX_CODE_BYTES, MAX_LABEL_BYTES, MAX_QUOTA, MAX_PROJECTS, MAX_STUDENTS, MAX_SUPERVISORS, RANKS, MAX_IMPORTS, MAX_IMPORT_BYTES, MAX_ROUNDS};
ghost use Rattle.office_model.specs.Laws.{PutIsFound, TakenIsGone, FoundGivesAll};

use crate::sorted::Entry;

/// Entries are a finite map by their keys.
pub fn entries_law<E: Entry>()
    ensures put { PutIsFound E.key }
    ensures taken { TakenIsGone E.key }
    ensures one { FoundGivesAll E.key }
{}

/// The limits are these numbers.
pub fn limits()
    ensures rolls { (MAX_SUPERVISORS ≡ 100) × (MAX_PROJECTS ≡ 400) × (MAX_STUDENTS ≡ 500) }
    ensures lists { (RANKS ≡ 12) × (MAX_QUOTA ≡ 500) × (MAX_ROUNDS ≡ 12) }
    ensures texts { (MAX_CODE_BYTES ≡ 16) × (MAX_LABEL_BYTES ≡ 200) }
    ensures imports { (MAX_IMPORTS ≡ 200) × (MAX_IMPORT_BYTES ≡ 65536) }
{}
