//! What the admission of a student changes: potentials, and who has which project.

use crate::heap::{Arc, End, Frontier};
use crate::labels::Packed;
use crate::state::Network;
use std::alloc::AllocError;

/// Returns what the best choice of a student gains over what it costs, and nothing if none gains.
fn gain(network: &Network, student: usize) -> Packed {
    // Sums wrap, here and in the whole search: no bound of them is proved, and prices that went wrong are not accepted.
    let mut gain = 0;
    for (project, worth) in network.list(student).iter().zip(&network.worths) {
        gain = gain.max(worth.wrapping_sub(network.nodes[*project].potential));
    }
    gain
}

/// Migrates the potential of a node.
fn lift(network: &mut Network, node: usize, by: Packed) {
    let node = &mut network.nodes[node];
    node.potential = node.potential.wrapping_add(by);
}

/// Makes a project cost this much more, if it is full, and its students gain as much less.
fn raise_project(network: &mut Network, project: usize, by: Packed) {
    // A project with room costs what its supervisor does, so it is lifted with that one.
    if network.nodes[project].is_full() {
        lift(network, project, by);
    }
    for student in &network.inside[project] {
        let student = &mut network.students[*student];
        student.potential = student.potential.wrapping_sub(by);
    }
}

/// Makes a supervisor cost this much more, and with it the projects that have room.
fn raise_supervisor(network: &mut Network, supervisor: usize, by: Packed) {
    lift(network, supervisor, by);
    for project in &network.inside[supervisor] {
        let node = &mut network.nodes[*project];
        if !node.is_full() {
            node.potential = node.potential.wrapping_add(by);
        }
    }
}

/// Migrates the potentials of settled nodes by what the best end is beyond them.
fn raise(network: &mut Network, frontier: &Frontier) {
    for node in &frontier.settled {
        // The node that was settled last may be no nearer than the best end. Its potential stays.
        let by = frontier.best.wrapping_sub(frontier.marks[*node].label);
        if by > 0 && network.is_project(*node) {
            raise_project(network, *node, by);
        } else if by > 0 {
            raise_supervisor(network, *node, by);
        }
    }
}

/// Counts a student more at a node.
fn take(network: &mut Network, node: usize) {
    let node = &mut network.nodes[node];
    node.taken = node.taken.wrapping_add(1);
}

/// Counts a student fewer at a project. If it was full, it costs no more than its supervisor from now on.
fn give(network: &mut Network, project: usize, supervisor: usize) {
    let above = network.nodes[supervisor].potential;
    let node = &mut network.nodes[project];
    // Asked before the student is counted off: until now it was full, and its price its own.
    if node.is_full() {
        node.potential = above;
    }
    node.taken = node.taken.wrapping_sub(1);
}

/// Takes a student out of the project, if there is one, and returns the project.
pub(crate) fn leave(network: &mut Network, student: usize) -> Option<usize> {
    let project = network.students[student].project?;
    network.students[student].project = None;
    network.inside[project].retain(|other| *other != student);
    Some(project)
}

/// Adds a student to a project.
pub(crate) fn come(
    network: &mut Network,
    student: usize,
    project: usize,
) -> Result<(), AllocError> {
    network.students[student].project = Some(project);
    // Where this runs out of memory a student is between two projects. The search ends with it, and nobody sees the network again.
    network.inside[project].push(student)?;
    Ok(())
}

/// Makes an arc to a node. Returns the node that it comes from, or none where it comes from the one who is admitted.
fn make(network: &mut Network, node: usize, arc: Arc) -> Result<Option<usize>, AllocError> {
    match arc {
        Arc::Student(student) => {
            let left = leave(network, student);
            come(network, student, node)?;
            Ok(left)
        }
        Arc::Up(project) => {
            take(network, project);
            Ok(Some(project))
        }
        Arc::Down(supervisor) => {
            give(network, node, supervisor);
            Ok(Some(supervisor))
        }
    }
}

/// Moves the students of a walk along it, from its end back to the one who is admitted.
fn follow(network: &mut Network, frontier: &Frontier) -> Result<(), AllocError> {
    let mut before = match frontier.end {
        End::Start => None,
        End::Room(student, project) => {
            let supervisor = network.nodes[project].supervisor;
            // The walk ends at a place that both have free, so both count a student more.
            take(network, supervisor);
            take(network, project);
            make(network, project, Arc::Student(student))?
        }
        End::Out(student) => leave(network, student),
    };
    // A walk comes to no node twice. The count is what makes the loop end by proof, even with wrong marks.
    for _ in 0..network.nodes.items.len() {
        let Some(node) = before else {
            break;
        };
        before = make(network, node, frontier.marks[node].arc)?;
    }
    Ok(())
}

/// Admits a student.
pub(crate) fn admit(
    network: &mut Network,
    frontier: &mut Frontier,
    student: usize,
) -> Result<(), AllocError> {
    let gain = gain(network, student);
    // No entry is worth more than it costs, so no walk gains: the student goes without.
    if gain == 0 {
        return Ok(());
    }
    frontier.find(network, student, gain)?;
    // Before the walk is followed, since it goes by who is where, and which project is full, as the search saw it.
    raise(network, frontier);
    network.students[student].potential = gain.wrapping_sub(frontier.best);
    follow(network, frontier)
}
