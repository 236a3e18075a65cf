//! The key and the copy of each kind of entry.

ghost use Rattle.office_model.specs.Common.{supervisor_key, project_key, student_key, round_key, aim_key, list_key, placement_key, import_key};

use crate::entries::{Project, Student, Supervisor};
use crate::import::Import;
use crate::rounds::{Listed, Placement, Round, RoundAim};
use crate::sorted::Entry;
use std::alloc::{AllocError, Global};

impl Entry for Supervisor {
    ghost key = { supervisor_key };

    fn key(&self) -> (u32, &str) {
        (0, self.code.as_str())
    }

    fn duplicate(&self, _alloc: Global) -> Result<Self, AllocError> {
        Ok(Supervisor {
            code: self.code.copy(),
            label: self.label.copy()?,
            quota: self.quota,
        })
    }
}

impl Entry for Project {
    ghost key = { project_key };

    fn key(&self) -> (u32, &str) {
        (0, self.code.as_str())
    }

    fn duplicate(&self, _alloc: Global) -> Result<Self, AllocError> {
        Ok(Project {
            code: self.code.copy(),
            label: self.label.copy()?,
            supervisor: self.supervisor.copy(),
            quota: self.quota,
        })
    }
}

impl Entry for Student {
    ghost key = { student_key };

    fn key(&self) -> (u32, &str) {
        (0, self.code.as_str())
    }

    fn duplicate(&self, _alloc: Global) -> Result<Self, AllocError> {
        Ok(Student {
            code: self.code.copy(),
            label: self.label.copy()?,
        })
    }
}

impl Entry for Listed {
    ghost key = { list_key };

    fn key(&self) -> (u32, &str) {
        (0, self.student.as_str())
    }

    fn duplicate(&self, _alloc: Global) -> Result<Self, AllocError> {
        Ok(Listed {
            student: self.student.copy(),
            choices: self.choices.copy()?,
        })
    }
}

impl Entry for Round {
    ghost key = { round_key };

    fn key(&self) -> (u32, &str) {
        (self.number, "")
    }

    fn duplicate(&self, alloc: Global) -> Result<Self, AllocError> {
        Ok(Round {
            number: self.number,
            is_open: self.is_open,
            lists: self.lists.duplicate(alloc)?,
        })
    }
}

impl Entry for RoundAim {
    ghost key = { aim_key };

    fn key(&self) -> (u32, &str) {
        (self.round, "")
    }

    fn duplicate(&self, _alloc: Global) -> Result<Self, AllocError> {
        Ok(RoundAim {
            round: self.round,
            aim: self.aim,
        })
    }
}

impl Entry for Placement {
    ghost key = { placement_key };

    fn key(&self) -> (u32, &str) {
        (0, self.student.as_str())
    }

    fn duplicate(&self, _alloc: Global) -> Result<Self, AllocError> {
        Ok(self.copy())
    }
}

impl Entry for Import {
    ghost key = { import_key };

    fn key(&self) -> (u32, &str) {
        (0, self.id.as_str())
    }

    fn duplicate(&self, _alloc: Global) -> Result<Self, AllocError> {
        Ok(Import {
            id: self.id.copy(),
            kind: self.kind,
            bytes: self.bytes.copy()?,
            rows: self.rows,
        })
    }
}
