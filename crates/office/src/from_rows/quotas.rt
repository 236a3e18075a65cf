//! Whether quotas are kept. All placements are counted once.

ghost use Rattle.std.specs.Prelude.{◌≡◌, ◌≤◌, nat_le, IsTrue, None, length};
ghost use Rattle.office.specs.from_rows.Common.{list_all, MAX_PROJECTS, MAX_SUPERVISORS, placed_in_project, placed_with_supervisor};
ghost use Rattle.office_model.specs.Counted.{AreCounted};
ghost use Rattle.office.specs.from_rows.View.{drafted};
ghost use Rattle.office.specs.from_rows.Inside.Whole.{are_few, are_offered, are_within};

use crate::from_rows::draft::PartialOffice;
use office_model::counted;
use spa::Counts;

impl PartialOffice {
    /// Whether no project has more students than its quota.
    fn are_projects_within(&self, counts: &Counts) -> bool
        requires few { length self.now.projects ≤ MAX_PROJECTS }
        requires counted { AreCounted None self.now.supervisors self.now.projects self.now.placements counts.now }
        ensures { result ≡ list_all (λ p. nat_le (placed_in_project (drafted self.now) p.code) p.quota) self.now.projects }
    {
        let projects = self.projects.entries();
        for position in 0..projects.len() {
            if counts.in_project(position) > projects[position].quota {
                return false;
            }
        }
        true
    }

    /// Whether no supervisor has more students than the quota.
    fn are_supervisors_within(&self, counts: &Counts) -> bool
        requires few { length self.now.supervisors ≤ MAX_SUPERVISORS }
        requires counted { AreCounted None self.now.supervisors self.now.projects self.now.placements counts.now }
        ensures { result ≡ list_all (λ s. nat_le (placed_with_supervisor (drafted self.now) s.code) s.quota) self.now.supervisors }
    {
        let supervisors = self.supervisors.entries();
        for position in 0..supervisors.len() {
            if counts.with_supervisor(position) > supervisors[position].quota {
                return false;
            }
        }
        true
    }

    /// Whether no project and no supervisor has more students than the quota.
    pub(crate) fn are_within(&self) -> bool
        requires few { IsTrue (are_few (drafted self.now)) }
        requires offered { IsTrue (are_offered (drafted self.now)) }
        ensures { result ≡ are_within (drafted self.now) }
    {
        let counts = counted(
            None,
            self.supervisors.entries(),
            self.projects.entries(),
            self.placements.entries(),
        );
        self.are_projects_within(&counts) && self.are_supervisors_within(&counts)
    }
}
