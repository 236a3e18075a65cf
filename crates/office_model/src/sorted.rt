//! Entries in the order of their keys.

ghost use Rattle.std.specs.Prelude.{◌≡◌, ℕ, List, [], IfOk, IfErr, OnOk, OnErr, length, option_copied, IsTrue};
ghost use Rattle.office_model.specs.Roll.{Key, of_code, of_number, key_cmp, find, put, take_out, rises};
ghost use Rattle.office_model.specs.Inside.Place.{IsAt, IsGapFor};

use std::alloc::{AllocError, Global};
use std::cmp::Ordering;
use std::marker::Model;
use std::rc::Rc;

/// An entry of the office: its key is a round, or 0, and a code.
pub trait Entry: Sized {
    ghost key: { Self → Key };

    fn key(&self) -> (u32, &str)
        ensures round { let k = key self.now in result.0 ≡ k.0 }
        ensures code { let k = key self.now in result.1.now ≡ k.1 };

    /// Returns the same entry, in memory of its own.
    fn duplicate(&self, alloc: Global) -> Result<Self, AllocError>
        ensures { IfOk result (λ copy. copy ≡ self.now) };
}

/// Entries in the order of their keys. Copies share them until one of them is changed.
#[derive(Drop)]
pub struct Entries<E: Entry> {
    alloc: Global,
    entries: Option<Rc<Vec<E>>>,
}

impl<E: Entry> Model for Entries<E> {
    ghost use Rattle.std.specs.Prelude.{List, IsTrue};
    ghost use Rattle.office_model.specs.Roll.{rises};
    ghost use Rattle.office_model.specs.Shared.{held};

    ghost Value = { List E };

    ghost view = { λ t. held t.entries (λ shared. shared.value.items) };

    ghost invariant = { λ t. IsTrue (rises E.key (held t.entries (λ shared. shared.value.items))) };
}

/// Compares the key of an entry with another.
fn compare<E: Entry>(entry: &E, round: u32, code: &str) -> Ordering
    ensures { result ≡ key_cmp (E.key entry.now) (round, code.now) }
{
    let (its_round, its_code) = entry.key();
    its_round.cmp(&round).then(its_code.cmp(code))
}

/// Returns where the entry with the key stands, or where one would go: a search by halves.
pub(crate) fn search<E: Entry>(entries: &[E], round: u32, code: &str) -> Result<usize, usize>
    requires { IsTrue (rises E.key entries.now) }
    ensures found { IfOk result (IsAt E.key entries.now (round, code.now)) }
    ensures absent { IfErr result (IsGapFor E.key entries.now (round, code.now)) }
{
    entries.binary_search_by(|entry| compare(entry, round, code))
}

/// Lends the entry with the key: a search by halves.
pub fn find<'a, E: Entry>(entries: &'a [E], round: u32, code: &str) -> Option<&'a E>
    requires { IsTrue (rises E.key entries.now) }
    ensures { option_copied result ≡ find E.key (round, code.now) entries.now }
{
    match search(entries, round, code) {
        Ok(at) => Some(&entries[at]),
        Err(_) => None,
    }
}

/// Puts an entry in its place, over one with its key.
fn put_in<E: Entry + Drop>(entries: &mut Vec<E>, entry: E) -> Result<(), AllocError>
    requires { IsTrue (rises E.key entries.old.items) }
    ensures ok { OnOk result (entries.new.items ≡ put E.key entry entries.old.items) }
    ensures err { OnErr result (entries.new.items ≡ entries.old.items) }
    ensures sorted { IsTrue (rises E.key entries.new.items) }
{
    let (round, code) = entry.key();
    match search(entries, round, code) {
        Ok(at) => {
            entries[at] = entry;
            Ok(())
        }
        Err(at) => {
            entries.insert(at, entry)?;
            Ok(())
        }
    }
}

/// Takes out the entry with the key, if there is one, and hands it over.
fn take_from<E: Entry + Drop>(entries: &mut Vec<E>, round: u32, code: &str) -> Option<E>
    requires { IsTrue (rises E.key entries.old.items) }
    ensures found { result ≡ find E.key (round, code.now) entries.old.items }
    ensures taken { entries.new.items ≡ take_out E.key (round, code.now) entries.old.items }
    ensures sorted { IsTrue (rises E.key entries.new.items) }
{
    match search(entries, round, code) {
        Ok(at) => Some(entries.remove(at)),
        Err(_) => None,
    }
}

/// Returns the same entries, in memory of their own.
fn copied<E: Entry + Drop>(alloc: Global, from: &[E]) -> Result<Vec<E>, AllocError>
    ensures { IfOk result (λ copy. copy.items ≡ from.now) }
{
    let mut entries = Vec::with_capacity(alloc, from.len())?;
    for entry in from {
        entries.push(entry.duplicate(alloc)?)?;
    }
    Ok(entries)
}

impl<E: Entry> Entries<E> {
    pub fn new(alloc: Global) -> Self
        ensures { result ≡ [] }
    {
        Entries {
            alloc,
            entries: None,
        }
    }

    /// Entries whose keys rise. An `Err` is out of memory.
    pub fn of(alloc: Global, entries: Vec<E>) -> Result<Self, AllocError>
    where
        E: Drop,
        requires { IsTrue (rises E.key entries.items) }
        ensures { IfOk result (λ own. own ≡ entries.items) }
    {
        Ok(Entries {
            alloc,
            entries: Some(Rc::new(alloc, entries)?),
        })
    }

    /// Returns all of them, by their keys.
    pub fn entries(&self) -> &[E]
        ensures all { result.now ≡ self.now }
        ensures sorted { IsTrue (rises E.key self.now) }
    {
        match &self.entries {
            Some(shared) => shared.as_ref().as_slice(),
            None => &[],
        }
    }

    pub fn find(&self, round: u32, code: &str) -> Option<&E>
        ensures { option_copied result ≡ find E.key (round, code.now) self.now }
    {
        find(self.entries(), round, code)
    }

    /// Lends the entry of a roll, or of a round's lists, with this code.
    pub fn by_code(&self, code: &str) -> Option<&E>
        ensures { option_copied result ≡ find E.key (of_code code.now) self.now }
    {
        self.find(0, code)
    }

    /// Lends the entry with this number.
    pub fn by_number(&self, number: u32) -> Option<&E>
        ensures { option_copied result ≡ find E.key (of_number number) self.now }
    {
        self.find(number, "")
    }

    /// Puts an entry in its place, over one with its key. Entries that a copy shares are copied first. An `Err` is out of memory.
    pub fn put(&mut self, entry: E) -> Result<(), AllocError>
    where
        E: Drop,
        ensures ok { OnOk result (self.new ≡ put E.key entry self.old) }
        ensures err { OnErr result (self.new ≡ self.old) }
    {
        if let Some(shared) = &mut self.entries {
            if let Some(own) = Rc::get_mut(shared) {
                return put_in(own, entry);
            }
        }
        let mut own = copied(self.alloc, self.entries())?;
        put_in(&mut own, entry)?;
        self.entries = Some(Rc::new(self.alloc, own)?);
        Ok(())
    }

    /// Takes out the entry with the key, if there is one. Entries that a copy shares are copied first. An `Err` is out of memory.
    pub fn take_out(&mut self, round: u32, code: &str) -> Result<(), AllocError>
    where
        E: Drop,
        ensures ok { OnOk result (self.new ≡ take_out E.key (round, code.now) self.old) }
        ensures err { OnErr result (self.new ≡ self.old) }
    {
        self.remove(round, code)?;
        Ok(())
    }

    /// Takes out the entry with the key, if there is one, and hands it over. Entries that a copy shares are copied first. An `Err` is out
    /// of memory.
    pub fn remove(&mut self, round: u32, code: &str) -> Result<Option<E>, AllocError>
    where
        E: Drop,
        ensures found { IfOk result (λ entry. entry ≡ find E.key (round, code.now) self.old) }
        ensures ok { OnOk result (self.new ≡ take_out E.key (round, code.now) self.old) }
        ensures err { OnErr result (self.new ≡ self.old) }
        ensures sorted { IsTrue (rises E.key self.old) }
    {
        if search(self.entries(), round, code).is_err() {
            return Ok(None);
        }
        if let Some(shared) = &mut self.entries {
            if let Some(own) = Rc::get_mut(shared) {
                return Ok(take_from(own, round, code));
            }
        }
        let mut own = copied(self.alloc, self.entries())?;
        let entry = take_from(&mut own, round, code);
        self.entries = Some(Rc::new(self.alloc, own)?);
        Ok(entry)
    }

    /// Returns the same entries. Both share them. Allocates nothing.
    pub fn duplicate(&self, alloc: Global) -> Result<Self, AllocError>
    where
        E: Drop,
        ensures { IfOk result (λ copy. copy ≡ self.now) }
    {
        match &self.entries {
            Some(shared) => Ok(Entries {
                alloc,
                entries: Some(shared.clone()?),
            }),
            None => Ok(Entries::new(alloc)),
        }
    }
}
