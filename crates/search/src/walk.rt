//! The search for a cheapest augmenting walk of a student.

use crate::heap::{Arc, End, Frontier};
use crate::labels::Packed;
use crate::state::Network;
use std::alloc::AllocError;

impl Frontier {
    /// Goes on from a student, who comes at this label, to the projects of the list, but not to places that would be no better than
    /// the best end even if they cost nothing.
    fn relax(&mut self, network: &Network, student: usize, at: Packed) -> Result<(), AllocError> {
        for (project, worth) in network.list(student).iter().zip(&network.worths) {
            let free = at.wrapping_sub(*worth);
            // Worths fall from rank to rank, so no later entry does better.
            if free >= self.best {
                break;
            }
            let node = &network.nodes[*project];
            let label = free.wrapping_add(node.potential);
            // Both have room, so the walk can end here: no node stands for the sink.
            if network.has_room(node) {
                self.offer(label, End::Room(student, *project));
            } else if label < self.best {
                self.reach(*project, label, Arc::Student(student))?;
            }
        }
        Ok(())
    }

    /// Goes on from a project: to its supervisor, if it has room, and by its students.
    fn leave_project(&mut self, network: &Network, project: usize) -> Result<(), AllocError> {
        let node = &network.nodes[project];
        let label = self.marks[project].label;
        if !node.is_full() {
            self.reach(node.supervisor, label, Arc::Up(project))?;
        }
        for student in &network.inside[project] {
            let label = label.wrapping_add(network.students[*student].potential);
            self.offer(label, End::Out(*student));
            self.relax(network, *student, label)?;
        }
        Ok(())
    }

    /// Goes on from a supervisor to the projects that have students.
    fn leave_supervisor(&mut self, network: &Network, supervisor: usize) -> Result<(), AllocError> {
        let potential = network.nodes[supervisor].potential;
        let free = self.marks[supervisor].label.wrapping_sub(potential);
        for project in &network.inside[supervisor] {
            let node = &network.nodes[*project];
            let label = free.wrapping_add(node.potential);
            // A project without students has none to give up, so no walk goes on from it.
            if node.taken > 0 && label < self.best {
                self.reach(*project, label, Arc::Down(supervisor))?;
            }
        }
        Ok(())
    }

    /// Finds the best end for a student whose best choice gains this much.
    pub(crate) fn find(
        &mut self,
        network: &Network,
        student: usize,
        gain: Packed,
    ) -> Result<(), AllocError> {
        self.restart(gain);
        self.relax(network, student, gain)?;
        // Each iteration settles one node, and none twice, so there are no more than nodes.
        for _ in &network.nodes.items {
            let Some(node) = self.settle()? else {
                break;
            };
            if network.is_project(node) {
                self.leave_project(network, node)?;
            } else {
                self.leave_supervisor(network, node)?;
            }
        }
        Ok(())
    }
}
