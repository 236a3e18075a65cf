//! The kinds of imports: the header of each, and the request of a record.
#![tactic(auto)]

ghost use Rattle.std.specs.Prelude.{◌≡◌, map, IfOk};
ghost use Rattle.csv.specs.Records.{fields_of};
ghost use Rattle.import_csv.specs.Kinds.{header_of, request_of, field};

use crate::fields::{choices_of, quota_of, text_of};
use csv::ByteRecord;
use office_model::{ImportKind, Plain};
use std::alloc::{AllocError, Global};

/// Returns the fields of a kind's first record.
pub(crate) fn header_of(kind: ImportKind) -> &'static [&'static str]
    ensures { map (λ name. name.now) result.now ≡ header_of kind }
{
    match kind {
        ImportKind::Supervisors => &["code", "name", "quota"],
        ImportKind::Projects => &["code", "name", "supervisor", "quota"],
        ImportKind::Students => &["code", "name"],
        ImportKind::Lists => &["student", "choices"],
    }
}

/// Returns a field of a record; one that is not there is empty.
pub(crate) fn field(fields: &ByteRecord, place: usize) -> &[u8]
    ensures { result.now ≡ field (fields_of fields.now) place }
{
    fields.get(place).unwrap_or(b"")
}

/// Returns the request of a record.
pub(crate) fn request_of(
    alloc: Global,
    kind: ImportKind,
    fields: &ByteRecord,
) -> Result<Plain, AllocError>
    ensures { IfOk result (λ request. request ≡ request_of kind (fields_of fields.now)) }
{
    Ok(match kind {
        ImportKind::Supervisors => Plain::PutSupervisor {
            code: text_of(alloc, field(fields, 0))?,
            label: text_of(alloc, field(fields, 1))?,
            quota: quota_of(field(fields, 2)),
        },
        ImportKind::Projects => Plain::PutProject {
            code: text_of(alloc, field(fields, 0))?,
            label: text_of(alloc, field(fields, 1))?,
            supervisor: text_of(alloc, field(fields, 2))?,
            quota: quota_of(field(fields, 3)),
        },
        ImportKind::Students => Plain::PutStudent {
            code: text_of(alloc, field(fields, 0))?,
            label: text_of(alloc, field(fields, 1))?,
        },
        ImportKind::Lists => Plain::PutList {
            student: text_of(alloc, field(fields, 0))?,
            choices: choices_of(alloc, field(fields, 1))?,
        },
    })
}
