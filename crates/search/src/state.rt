//! The network: projects and supervisors with their potentials, and the students with the projects that they have.

use crate::exchange::move_to;
use crate::labels::{Packed, packed, row, worths};
use crate::padded::Padded;
use spa::{Aim, Instance, Matching, RANKS};
use std::alloc::{AllocError, Global};
use verdict::{Prices, Proved};

/// A project or a supervisor.
#[derive(Clone, Copy, Default)]
pub(crate) struct Node {
    /// What a place here costs: a project's has its supervisor's in it.
    pub potential: Packed,
    pub quota: u32,
    /// How many students it has.
    pub taken: u32,
    /// The node of a project's supervisor; a supervisor's is its own.
    pub supervisor: usize,
}

impl Node {
    /// Does it have as many students as it may have?
    pub(crate) fn is_full(&self) -> bool {
        self.taken >= self.quota
    }
}

/// A student.
#[derive(Clone, Copy, Default)]
pub(crate) struct Student {
    /// What the student gains over what the place costs.
    pub potential: Packed,
    /// The project that the student has.
    pub project: Option<usize>,
}

/// The projects and then the supervisors, and the students.
#[derive(Drop)]
pub(crate) struct Network<'a> {
    pub instance: &'a Instance,
    aim: Aim,
    pub worths: [Packed; RANKS],
    pub nodes: Padded<Node>,
    /// The students who have a project, and the projects of a supervisor.
    pub inside: Padded<Vec<usize>>,
    pub students: Padded<Student>,
}

/// Returns the node of a project or a supervisor that nobody has. If there are no places, they cost as much as any pair is worth.
fn empty(quota: u32, supervisor: usize, places: u32, dearest: Packed) -> Node {
    Node {
        // No worth is above that of rank 1, so nobody gains here.
        potential: if places == 0 { dearest } else { 0 },
        quota,
        taken: 0,
        supervisor,
    }
}

/// Returns the nodes of an instance.
fn nodes_of(
    alloc: Global,
    instance: &Instance,
    dearest: Packed,
) -> Result<Padded<Node>, AllocError> {
    let projects = instance.project_count();
    let mut nodes = Vec::new(alloc);
    for project in 0..projects {
        let quota = instance.project_quota(project);
        let supervisor = instance.supervisor_of(project);
        let places = quota.min(instance.supervisor_quota(supervisor));
        nodes.push(empty(quota, projects.wrapping_add(supervisor), places, dearest))?;
    }
    for quota in instance.supervisors() {
        nodes.push(empty(*quota, nodes.len(), *quota, dearest))?;
    }
    Ok(Padded {
        items: nodes,
        spare: Node::default(),
    })
}

/// Returns the projects of each supervisor, and no students in any project.
fn inside_of(
    alloc: Global,
    instance: &Instance,
    nodes: &Padded<Node>,
) -> Result<Padded<Vec<usize>>, AllocError> {
    let mut inside = Padded {
        items: Vec::with_capacity(alloc, nodes.items.len())?,
        spare: Vec::new(alloc),
    };
    for _ in &nodes.items {
        inside.items.push(Vec::new(alloc))?;
    }
    for project in 0..instance.project_count() {
        inside[nodes[project].supervisor].push(project)?;
    }
    Ok(inside)
}

/// Returns the project at a place of a list, from 1.
fn choice(list: &[usize], place: Option<u8>) -> Option<usize> {
    let before = place?.checked_sub(1)?;
    list.get(before as usize).copied()
}

/// Returns the place of a project in a list, from 1.
fn place_of(list: &[usize], project: usize) -> Option<u8> {
    let before = list.iter().position(|choice| *choice == project)?;
    u8::try_from(before).ok()?.checked_add(1)
}

impl<'a> Network<'a> {
    /// Returns the network of an instance, in which nobody is admitted yet.
    pub(crate) fn start(
        alloc: Global,
        instance: &'a Instance,
        aim: Aim,
    ) -> Result<Network<'a>, AllocError> {
        let worths = worths(aim);
        let nodes = nodes_of(alloc, instance, worths[0])?;
        let inside = inside_of(alloc, instance, &nodes)?;
        Ok(Network {
            instance,
            aim,
            worths,
            nodes,
            inside,
            students: Padded::filled(alloc, instance.student_count(), Student::default())?,
        })
    }

    /// Makes each node and each student cost and gain what prices say.
    fn price_as(&mut self, prices: &Prices) {
        for (student, price) in prices.students.iter().enumerate() {
            self.students[student].potential = packed(self.aim, price);
        }
        let projects = prices.projects.len();
        for (supervisor, price) in prices.supervisors.iter().enumerate() {
            self.nodes[projects.wrapping_add(supervisor)].potential = packed(self.aim, price);
        }
        for (project, price) in prices.projects.iter().enumerate() {
            let above = self.nodes[self.nodes[project].supervisor].potential;
            self.nodes[project].potential = packed(self.aim, price).wrapping_add(above);
        }
    }

    /// Returns the network of a matching with its prices.
    pub(crate) fn of(
        alloc: Global,
        instance: &'a Instance,
        aim: Aim,
        proved: &Proved,
    ) -> Result<Network<'a>, AllocError> {
        let mut network = Network::start(alloc, instance, aim)?;
        network.price_as(&proved.prices);
        for (student, place) in proved.matching.places.iter().enumerate() {
            if let Some(project) = choice(network.list(student), *place) {
                move_to(&mut network, student, project)?;
            }
        }
        Ok(network)
    }

    /// Returns the list of a student.
    pub(crate) fn list(&self, student: usize) -> &[usize] {
        match self.instance.students().get(student) {
            Some(list) => list,
            // No student is past the end. An empty list asks for no proof of it.
            None => &[],
        }
    }

    /// Whether this node is a project.
    pub(crate) fn is_project(&self, node: usize) -> bool {
        node < self.instance.project_count()
    }

    /// Whether a project and its supervisor have room.
    pub(crate) fn has_room(&self, project: &Node) -> bool {
        !project.is_full() && !self.nodes[project.supervisor].is_full()
    }

    /// Returns the places that the students have.
    pub(crate) fn matching(&self, alloc: Global) -> Result<Matching, AllocError> {
        let mut places = Vec::with_capacity(alloc, self.students.items.len())?;
        for student in 0..self.students.items.len() {
            places.push(match self.students[student].project {
                Some(project) => place_of(self.list(student), project),
                None => None,
            })?;
        }
        Ok(Matching { places })
    }

    /// Returns what a node costs of itself.
    fn price(&self, node: &Node, above: Packed) -> Packed {
        // Times a quota of 0 it costs nothing, and it covers every pair that lists the project.
        if node.quota == 0 {
            self.worths[0]
        } else {
            node.potential.wrapping_sub(above)
        }
    }

    /// Returns the prices: each potential, a project's without its supervisor's.
    pub(crate) fn prices(&self, alloc: Global) -> Result<Prices, AllocError> {
        let mut prices = Prices {
            students: Vec::with_capacity(alloc, self.students.items.len())?,
            projects: Vec::with_capacity(alloc, self.instance.project_count())?,
            supervisors: Vec::with_capacity(alloc, self.instance.supervisor_count())?,
        };
        for student in &self.students.items {
            prices.students.push(row(self.aim, student.potential))?;
        }
        for node in &self.nodes.items {
            if prices.projects.len() < self.instance.project_count() {
                let above = self.nodes[node.supervisor].potential;
                prices
                    .projects
                    .push(row(self.aim, self.price(node, above)))?;
            } else {
                prices.supervisors.push(row(self.aim, self.price(node, 0)))?;
            }
        }
        Ok(prices)
    }
}
