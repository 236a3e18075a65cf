//! Import texts, read.
#![tactic(auto)]

ghost use Rattle.std.specs.Prelude.{◌≡◌, ◌≤◌, ◌⊎◌, ◌==◌, ◌%◌, length, map, IfOk, IfErr, Ok, Err, count_by};
ghost use Rattle.std.specs.List.{position};
ghost use Rattle.std.specs.Str.{bytes_eq};
ghost use Rattle.std.specs.Cmp.Lexicographic.{pointwise};
ghost use Rattle.csv.specs.Records.{fields_of};
ghost use Rattle.import_csv.specs.declared.fault.ImportFault.TheVariants.{Memory};
ghost use Rattle.import_csv.specs.Kinds.{header_of, request_of};
ghost use Rattle.import_csv.specs.Requests.{IsRecordOf, records_of, has_odd_quotes, is_header, has_other_length, requests_after, requests_of};
ghost use Rattle.import_csv.specs.Inside.Requests.{is_of_form};

use crate::fault::ImportFault;
use crate::kinds::{field, header_of, request_of};
use csv::{ByteRecord, ErrorKind, ReaderBuilder};
use office_model::{ImportKind, Plain};
use std::alloc::{AllocError, Global};

/// Whether an error of a reader speaks of the records that it read.
fn is_of_form(kind: &ErrorKind) -> bool
    ensures { result ≡ is_of_form kind.now }
{
    match kind {
        ErrorKind::UnequalLengths { .. } | ErrorKind::Utf8 { .. } => true,
        ErrorKind::Serialize(_) | ErrorKind::Deserialize { .. } => true,
        ErrorKind::Io(_) | ErrorKind::OutOfMemory => false,
    }
}

/// Returns the records of a text, its header among them.
fn records_of(alloc: Global, bytes: &[u8]) -> Result<Vec<ByteRecord>, AllocError>
    ensures { IfOk result (λ records. map fields_of records.items ≡ records_of bytes.now) }
{
    let reader = ReaderBuilder::new()
        .has_headers(false)
        .flexible(true)
        .from_reader(alloc, bytes);
    let mut records = Vec::new(alloc);
    for record in reader.into_byte_records() {
        match record {
            Ok(record) => records.push(record)?,
            Err(error) => {
                // Records may have any number of fields, and their bytes need not be text, so only memory is left.
                let for_memory = !is_of_form(error.kind());
                prove!(for_memory);
                return Err(AllocError);
            }
        }
    }
    Ok(records)
}

/// Whether a quote of the text has no partner.
fn has_odd_quotes(bytes: &[u8]) -> bool
    ensures { result ≡ has_odd_quotes bytes.now }
{
    bytes.iter().filter(|byte| **byte == b'"').count() % 2 == 1
}

/// Whether a record has these fields and no other.
fn has_fields(fields: &ByteRecord, names: &[&str]) -> bool
    ensures { result ≡ pointwise bytes_eq (fields_of fields.now) (map (λ name. name.now) names.now) }
{
    if fields.len() != names.len() {
        return false;
    }
    for (place, name) in names.iter().enumerate() {
        if field(fields, place) != name.as_bytes() {
            return false;
        }
    }
    true
}

/// Whether a record is the kind's header, field by field.
fn is_header(kind: ImportKind, fields: &ByteRecord) -> bool
    ensures { result ≡ is_header kind (fields_of fields.now) }
{
    has_fields(fields, header_of(kind))
}

/// Returns how many records stand before the first one with another number of fields than the kind's header.
fn first_other(kind: ImportKind, records: &[ByteRecord]) -> Option<usize>
    ensures { result ≡ position (λ r. has_other_length kind (fields_of r)) records.now }
{
    let fields = header_of(kind).len();
    records.iter().position(|record| record.len() != fields)
}

/// Returns the requests of records.
fn requests_of(
    alloc: Global,
    kind: ImportKind,
    records: &[ByteRecord],
) -> Result<Vec<Plain>, AllocError>
    ensures { IfOk result (λ requests. requests.items ≡ map (λ r. request_of kind (fields_of r)) records.now) }
{
    let mut requests = Vec::with_capacity(alloc, records.len())?;
    for record in records {
        requests.push(request_of(alloc, kind, record)?)?;
    }
    Ok(requests)
}

/// Returns the requests of the records after the header, or the first of them with another number of fields.
fn requests_after(
    alloc: Global,
    kind: ImportKind,
    rest: &[ByteRecord],
) -> Result<Vec<Plain>, ImportFault>
    ensures read { IfOk result (λ requests. requests_after kind (map fields_of rest.now) ≡ Ok requests.items) }
    ensures fault { IfErr result (λ fault. (fault ≡ Memory) ⊎ (requests_after kind (map fields_of rest.now) ≡ Err fault)) }
    ensures within { IfErr result (IsRecordOf (length rest.now)) }
{
    match first_other(kind, rest) {
        Some(before) => Err(ImportFault::Fields { record: before + 1 }),
        None => Ok(requests_of(alloc, kind, rest)?),
    }
}

/// Reads an import text: a request for each record after the header, in their order. An `Err` is out of memory, a header that is not the
/// kind's, or the first record with another number of fields.
#[tactic(auto, unfolding(crate::specs::Requests::requests_of))]
pub fn read_import(alloc: Global, kind: ImportKind, bytes: &[u8]) -> Result<Vec<Plain>, ImportFault>
    ensures read { IfOk result (λ requests. requests_of kind bytes.now ≡ Ok requests.items) }
    ensures few { IfOk result (λ requests. length requests.items ≤ length bytes.now) }

    // A fault of the definition comes unless an allocation fails first.
    ensures fault { IfErr result (λ fault. (fault ≡ Memory) ⊎ (requests_of kind bytes.now ≡ Err fault)) }

    // A record that is named is one of the text.
    ensures within { IfErr result (IsRecordOf (length bytes.now)) }
{
    if has_odd_quotes(bytes) {
        return Err(ImportFault::Header);
    }
    let records = records_of(alloc, bytes)?;
    let Some((first, rest)) = records.as_slice().split_first() else {
        return Err(ImportFault::Header);
    };
    if !is_header(kind, first) {
        return Err(ImportFault::Header);
    }
    requests_after(alloc, kind, rest)
}
