//! Imports: plain requests one after another, all of them or none.

ghost use Rattle.std.specs.Prelude.{◌≡◌, ◌≤◌, ◌⊎◌, ◌&&◌, not, nat_le, false, Ok, Some, None, IfOk, IfErr, OnOk, length};
ghost use Rattle.office.specs.Common.{has_import, kept_rows, ImportFits, first, import_tests, is_other_import, rows_refusal, with_import, Imports, import_changes};
ghost use Rattle.office_model.specs.declared.TheConstants.{MAX_IMPORT_BYTES, MAX_IMPORTS};
ghost use Rattle.office.specs.Inside.Importing.{AreMade};

use super::Office;
use crate::making::code_of;
use office_model::{
    Bytes, Change, Done, Import, ImportKind, MAX_IMPORT_BYTES, MAX_IMPORTS, Plain, Refusal, Reply,
    Text,
};
use spa::is_code_text;
use std::alloc::AllocError;
use std::mem;

impl Office {
    /// Returns how many rows the import of an id has, if there is one. Allocates nothing.
    pub fn kept_rows(&self, id: &str) -> Option<u32>
        ensures { result ≡ kept_rows self.now id.now }
    {
        Some(self.imports.by_code(id)?.rows)
    }

    /// Returns why an import can't be made, whatever its text is.
    pub(crate) fn import_refusal(&self, id: &str, kind: ImportKind, bytes: &[u8]) -> Option<Refusal>
        ensures { result ≡ first (import_tests self.now id.now kind bytes.now) }
    {
        if !is_code_text(id) {
            return Some(Refusal::Code);
        }
        if bytes.len() > MAX_IMPORT_BYTES {
            return Some(Refusal::TooLarge);
        }
        if self.is_other_import(id, kind, bytes) {
            return Some(Refusal::ImportIdUsed);
        }
        if self.imports.by_code(id).is_none() && self.imports.entries().len() >= MAX_IMPORTS {
            return Some(Refusal::RollFull);
        }
        None
    }

    /// Whether an import is stored under the id with another kind or other bytes.
    fn is_other_import(&self, id: &str, kind: ImportKind, bytes: &[u8]) -> bool
        ensures { result ≡ is_other_import self.now id.now kind bytes.now }
    {
        match self.imports.by_code(id) {
            Some(import) => {
                !(kind.word() == import.kind.word() && bytes == import.bytes.as_slice())
            }
            None => false,
        }
    }

    /// Makes an import of these rows, which are the requests of its text, and keeps it: all of them or none. One that is stored already
    /// changes nothing and answers its own number of rows. An `Err` is the refusal of the first record that is refused, or `Memory`, and
    /// leaves the office as it was.
    pub fn import(
        &mut self,
        id: Text,
        kind: ImportKind,
        bytes: Bytes,
        rows: Vec<Plain>,
    ) -> Result<Done, Refusal>
        requires few { length rows.items ≤ MAX_IMPORT_BYTES }
        ensures step { Imports id kind bytes rows.items self.old self.new result }
        ensures changes { IfOk result (λ done. let changes = done.changes in changes.items ≡ import_changes id kind bytes rows.items self.old) }
    {
        if let Some(refusal) = self.import_refusal(id.as_str(), kind, bytes.as_slice()) {
            return Err(refusal);
        }
        if let Some(rows) = self.kept_rows(id.as_str()) {
            return Ok(self.answered(Reply::Rows(rows)));
        }
        let mut next = self.copy()?;
        match next.import_new(id, kind, bytes, rows) {
            Ok(done) => {
                mem::swap(self, &mut next);
                Ok(done)
            }
            Err(refusal) => Err(refusal),
        }
    }

    /// Makes an import whose id is free. Where it is refused, some of its rows may have been made.
    fn import_new(
        &mut self,
        id: Text,
        kind: ImportKind,
        bytes: Bytes,
        rows: Vec<Plain>,
    ) -> Result<Done, Refusal>
        requires few { length rows.items ≤ MAX_IMPORT_BYTES }
        requires allowed { first (import_tests self.old id kind bytes) ≡ None }
        requires free { kept_rows self.old id ≡ None }
        ensures ok { IfOk result (λ done. Imports id kind bytes rows.items self.old self.new (Ok done)) }
        ensures changes { IfOk result (λ done. let changes = done.changes in changes.items ≡ import_changes id kind bytes rows.items self.old) }
        ensures err { IfErr result (λ refusal. (refusal ≡ Refusal.Memory) ⊎ (rows_refusal 1 self.old rows.items ≡ Some refusal)) }
    {
        let count = rows.len() as u32;
        let mut changes = self.make_all(rows)?;
        let import = Import {
            id: code_of(id.as_str()),
            kind,
            bytes,
            rows: count,
        };
        let row = import.row(self.alloc)?;
        self.keep(import)?;
        changes.push(Change::Add(row))?;
        Ok(Done {
            reply: Reply::Rows(count),
            changes,
        })
    }

    /// Makes plain requests one after another, and hands over their changes. Where one is refused, those before it were made.
    fn make_all(&mut self, rows: Vec<Plain>) -> Result<Vec<Change>, Refusal>
        requires few { length rows.items ≤ MAX_IMPORT_BYTES }
        ensures ok { IfOk result (λ changes. AreMade rows.items self.old self.new changes.items) }
        ensures err { IfErr result (λ refusal. (refusal ≡ Refusal.Memory) ⊎ (rows_refusal 1 self.old rows.items ≡ Some refusal)) }
    {
        let mut changes = Vec::new(self.alloc);
        let mut number = 0;
        for row in rows {
            number += 1;
            if let Some(refusal) = self.plain_refusal(&row) {
                return Err(Refusal::Row {
                    record: number,
                    inner: refusal.number(),
                });
            }
            let mut done = self.make(row)?;
            changes.append(&mut done.changes)?;
        }
        Ok(changes)
    }

    /// Keeps an import.
    fn keep(&mut self, import: Import) -> Result<(), AllocError>
        requires fits { ImportFits import }
        requires room { (not (has_import self.old import.id) && nat_le MAX_IMPORTS (let o = self.old in length o.imports)) ≡ false }
        ensures { OnOk result (self.new ≡ with_import import self.old) }
    {
        self.imports.put(import)?;
        Ok(())
    }
}
