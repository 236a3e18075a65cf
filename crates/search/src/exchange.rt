//! Exchanges: walks over tight pairs that better the place of one student, and move nobody who is settled.

use crate::admit::{come, leave};
use crate::lot::Options;
use crate::padded::Padded;
use crate::state::Network;
use std::alloc::{AllocError, Global};

/// A step of a walk to a node.
#[derive(Clone, Copy)]
struct Step {
    /// The node that it comes from; none where the walk begins.
    from: Option<usize>,
    /// The student who takes the place, if it is one that a student comes to.
    student: Option<usize>,
}

/// A search for an exchange, over the places, the supervisors and the end, at which a supervisor has a student more or fewer.
#[derive(Drop)]
pub(crate) struct Exchange {
    /// The last step to each node that was reached.
    steps: Padded<Option<Step>>,
    /// The nodes that were reached, in this order, and how many of them were left again.
    reached: Vec<usize>,
    left: usize,
    settled: Padded<bool>,
    nowhere: usize,
    end: usize,
}

impl Exchange {
    /// Creates a search in a network, in which nobody is settled.
    pub(crate) fn start(
        alloc: Global,
        network: &Network,
        nowhere: usize,
    ) -> Result<Exchange, AllocError> {
        let end = nowhere.wrapping_add(1);
        Ok(Exchange {
            steps: Padded::filled(alloc, end.wrapping_add(1), None)?,
            reached: Vec::new(alloc),
            left: 0,
            settled: Padded::filled(alloc, network.students.items.len(), false)?,
            nowhere,
            end,
        })
    }

    /// Begins anew: no node is reached any more.
    fn restart(&mut self) {
        for node in &self.reached {
            self.steps[*node] = None;
        }
        self.reached.clear();
        self.left = 0;
    }

    /// Reaches a node, if it was not reached before.
    fn reach(
        &mut self,
        node: usize,
        from: Option<usize>,
        student: Option<usize>,
    ) -> Result<(), AllocError> {
        if self.steps[node].is_none() {
            self.steps[node] = Some(Step { from, student });
            self.reached.push(node)?;
        }
        Ok(())
    }

    /// Goes on from a place: by its students, and to its supervisor, if it has room.
    fn leave_place(
        &mut self,
        network: &Network,
        options: &Options,
        place: usize,
    ) -> Result<(), AllocError> {
        for student in &network.inside[place] {
            if !self.settled[*student] {
                for other in options.of(*student) {
                    self.reach(*other, Some(place), Some(*student))?;
                }
            }
        }
        let node = &network.nodes[place];
        if !node.is_full() {
            self.reach(node.supervisor, Some(place), None)?;
        }
        Ok(())
    }

    /// Goes on from a supervisor: to the projects that may have a student fewer, and to the end, if there is room.
    fn leave_supervisor(&mut self, network: &Network, supervisor: usize) -> Result<(), AllocError> {
        let above = &network.nodes[supervisor];
        for project in &network.inside[supervisor] {
            let node = &network.nodes[*project];
            if node.taken > 0 && node.potential == above.potential {
                self.reach(*project, Some(supervisor), None)?;
            }
        }
        if !above.is_full() {
            self.reach(self.end, Some(supervisor), None)?;
        }
        Ok(())
    }

    /// Goes on from the end: to the supervisors who may have a student fewer.
    fn leave_end(&mut self, network: &Network) -> Result<(), AllocError> {
        for supervisor in 0..self.nowhere {
            let node = &network.nodes[supervisor];
            if !network.is_project(supervisor) && node.taken > 0 && node.potential == 0 {
                self.reach(supervisor, Some(self.end), None)?;
            }
        }
        Ok(())
    }

    /// Goes on from a node.
    fn leave(
        &mut self,
        network: &Network,
        options: &Options,
        node: usize,
    ) -> Result<(), AllocError> {
        if node == self.end {
            self.leave_end(network)
        } else if node == self.nowhere || network.is_project(node) {
            self.leave_place(network, options, node)
        } else {
            self.leave_supervisor(network, node)
        }
    }

    /// Whether a walk leads to a place. It goes on from all that was reached.
    fn leads_to(
        &mut self,
        network: &Network,
        options: &Options,
        place: usize,
    ) -> Result<bool, AllocError> {
        // No node is left twice, so there are no more than nodes.
        for _ in 0..self.steps.items.len() {
            if self.steps[place].is_some() {
                break;
            }
            let Some(node) = self.reached.get(self.left) else {
                break;
            };
            let node = *node;
            self.left = self.left.wrapping_add(1);
            self.leave(network, options, node)?;
        }
        Ok(self.steps[place].is_some())
    }

    /// Moves the students of the walk to a place.
    fn follow(&self, network: &mut Network, place: usize) -> Result<(), AllocError> {
        let mut node = place;
        for _ in &self.reached {
            let Some(step) = self.steps[node] else {
                break;
            };
            if let Some(student) = step.student {
                move_to(network, student, node)?;
            }
            let Some(from) = step.from else {
                break;
            };
            node = from;
        }
        Ok(())
    }

    /// Gives a student the first place of the options that a walk of those who are not settled makes free, and settles the student there.
    pub(crate) fn settle(
        &mut self,
        network: &mut Network,
        options: &Options,
        student: usize,
    ) -> Result<(), AllocError> {
        self.settled[student] = true;
        self.restart();
        let Some(present) = network.students[student].project else {
            return Ok(());
        };
        for place in options.of(student) {
            if *place == present {
                break;
            }
            // What an earlier place reached is kept: from there no walk leads to the present place.
            self.reach(*place, None, Some(student))?;
            if self.leads_to(network, options, present)? {
                return self.follow(network, present);
            }
        }
        Ok(())
    }
}

/// Counts a student more or fewer at a place and at its supervisor.
fn count(network: &mut Network, place: usize, more: u32) {
    let supervisor = network.nodes[place].supervisor;
    for node in [place, supervisor] {
        let node = &mut network.nodes[node];
        node.taken = node.taken.wrapping_add(more);
    }
}

/// Moves a student to another place.
pub(crate) fn move_to(
    network: &mut Network,
    student: usize,
    place: usize,
) -> Result<(), AllocError> {
    if let Some(left) = leave(network, student) {
        count(network, left, u32::MAX);
    }
    count(network, place, 1);
    come(network, student, place)
}
