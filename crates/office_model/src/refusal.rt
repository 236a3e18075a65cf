//! Why a request is refused.

ghost use Rattle.std.specs.Prelude.{◌≡◌, ◌==◌, true};
ghost use Rattle.std.specs.List.{list_any};
ghost use Rattle.office_model.specs.declared.refusal.Refusal.TheVariants.{Memory};
ghost use Rattle.office_model.specs.RefusalInfo.{refusal_info, statuses, number_of, status_of, name_of};

use std::alloc::{AllocError, AllocFailed};

/// Why a request was refused. A refused request changes nothing.
#[derive(Drop, Clone, Copy, PartialEq, Eq)]
pub enum Refusal {
    /// 1: an allocation failed.
    Memory,
    /// 2: the database failed for another cause than running out of memory.
    Storage,
    /// 3: a message head is none, or not in the profile that is served.
    BadHead,
    /// 4: a message is above its limits.
    TooLarge,
    /// 5: no route has the path.
    NoRoute,
    /// 6: the path has other methods.
    WrongMethod,
    /// 7: the body is no JSON.
    Json,
    /// 8: the body has other members than the request's.
    Members,
    /// 9: a text that is put as a code is none.
    Code,
    /// 10: a text that is put as a label is none.
    Label,
    /// 11: a quota is above `spa::MAX_QUOTA`.
    Quota,
    /// 12: a new entry in a full roll.
    RollFull,
    /// 13: no supervisor has the code.
    UnknownSupervisor,
    /// 14: no project has the code.
    UnknownProject,
    /// 15: no student has the code.
    UnknownStudent,
    /// 16: a known project is put with another supervisor.
    SupervisorFixed,
    /// 17: a new quota is below what is placed.
    BelowPlaced,
    /// 18: a round is open.
    RoundIsOpen,
    /// 19: no round is open.
    NoRoundOpen,
    /// 20: there is no round to reopen.
    NoRoundClosed,
    /// 21: there are `MAX_ROUNDS` rounds.
    RoundsFull,
    /// 22: the student is placed already.
    AlreadyPlaced,
    /// 23: a list has no choice, or more than `spa::RANKS`.
    ListLength,
    /// 24: a list names a project twice.
    RepeatedProject,
    /// 25: the student has no list in the open round.
    NoList,
    /// 26: no round has the number.
    UnknownRound,
    /// 27: the id is that of a stored import of another kind or with other bytes.
    ImportIdUsed,
    /// 28: an import text does not begin with the header of its kind, or a quote has no partner.
    Header,
    /// 29: a record of an import is refused; `inner` is the number of its own refusal.
    Row {
        /// The record's number, from 1 after the header.
        record: u32,
        inner: u32,
    },
    /// 30: the tables stand for no office; on opening only.
    Damaged,
}

/// A refusal's number, status and name.
#[derive(Drop, Clone, Copy)]
struct RefusalRow {
    number: u32,
    status: u16,
    name: &'static str,
}

impl Refusal {
    /// Returns its number, status and name.
    #[rattlefmt::skip]
    fn refusal_info(self) -> RefusalRow
        ensures row { (result.number, result.status, result.name.now) ≡ refusal_info self }
        ensures status { list_any (λ s. s == result.status) statuses ≡ true }
    {
        match self {
            Refusal::Memory => RefusalRow { number: 1, status: 503, name: "Memory" },
            Refusal::Storage => RefusalRow { number: 2, status: 503, name: "Storage" },
            Refusal::BadHead => RefusalRow { number: 3, status: 400, name: "BadHead" },
            Refusal::TooLarge => RefusalRow { number: 4, status: 413, name: "TooLarge" },
            Refusal::NoRoute => RefusalRow { number: 5, status: 404, name: "NoRoute" },
            Refusal::WrongMethod => RefusalRow { number: 6, status: 405, name: "WrongMethod" },
            Refusal::Json => RefusalRow { number: 7, status: 400, name: "Json" },
            Refusal::Members => RefusalRow { number: 8, status: 400, name: "Members" },
            Refusal::Code => RefusalRow { number: 9, status: 400, name: "Code" },
            Refusal::Label => RefusalRow { number: 10, status: 400, name: "Label" },
            Refusal::Quota => RefusalRow { number: 11, status: 400, name: "Quota" },
            Refusal::RollFull => RefusalRow { number: 12, status: 409, name: "RollFull" },
            Refusal::UnknownSupervisor => RefusalRow { number: 13, status: 404, name: "UnknownSupervisor" },
            Refusal::UnknownProject => RefusalRow { number: 14, status: 404, name: "UnknownProject" },
            Refusal::UnknownStudent => RefusalRow { number: 15, status: 404, name: "UnknownStudent" },
            Refusal::SupervisorFixed => RefusalRow { number: 16, status: 409, name: "SupervisorFixed" },
            Refusal::BelowPlaced => RefusalRow { number: 17, status: 409, name: "BelowPlaced" },
            Refusal::RoundIsOpen => RefusalRow { number: 18, status: 409, name: "RoundIsOpen" },
            Refusal::NoRoundOpen => RefusalRow { number: 19, status: 409, name: "NoRoundOpen" },
            Refusal::NoRoundClosed => RefusalRow { number: 20, status: 409, name: "NoRoundClosed" },
            Refusal::RoundsFull => RefusalRow { number: 21, status: 409, name: "RoundsFull" },
            Refusal::AlreadyPlaced => RefusalRow { number: 22, status: 409, name: "AlreadyPlaced" },
            Refusal::ListLength => RefusalRow { number: 23, status: 400, name: "ListLength" },
            Refusal::RepeatedProject => RefusalRow { number: 24, status: 400, name: "RepeatedProject" },
            Refusal::NoList => RefusalRow { number: 25, status: 404, name: "NoList" },
            Refusal::UnknownRound => RefusalRow { number: 26, status: 404, name: "UnknownRound" },
            Refusal::ImportIdUsed => RefusalRow { number: 27, status: 409, name: "ImportIdUsed" },
            Refusal::Header => RefusalRow { number: 28, status: 400, name: "Header" },
            Refusal::Row { .. } => RefusalRow { number: 29, status: 409, name: "Row" },
            Refusal::Damaged => RefusalRow { number: 30, status: 503, name: "Damaged" },
        }
    }

    /// Returns the number by which answers and messages name the refusal.
    pub fn number(self) -> u32
        ensures number { result ≡ number_of self }
    {
        self.refusal_info().number
    }

    /// Returns the status of its answer over HTTP.
    pub fn status(self) -> u16
        ensures value { result ≡ status_of self }
        ensures known { list_any (λ s. s == result) statuses ≡ true }
    {
        self.refusal_info().status
    }

    /// Returns its name.
    pub fn name(self) -> &'static str
        ensures { result.now ≡ name_of self }
    {
        self.refusal_info().name
    }
}

impl From<AllocError> for Refusal {
    ghost from_gives = { λ _ r. r ≡ Memory };

    fn from(_error: AllocError) -> Self {
        Refusal::Memory
    }
}

impl<T: Drop> From<AllocFailed<T>> for Refusal {
    ghost from_gives = { λ _ r. r ≡ Memory };

    fn from(_error: AllocFailed<T>) -> Self {
        Refusal::Memory
    }
}
