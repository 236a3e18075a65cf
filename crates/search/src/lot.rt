//! The lot: which of several best matchings is taken.
//!
//! Each student has a number, the SHA-256 of the code, which no list, no quota and no order of requests changes. Of all best matchings
//! those are left that give the first student by number the best place; of these, those that give it to the second; and so on. So a
//! round has one result, whatever finds it.
//!
//! The prices of one best matching determine them all: a matching is best exactly if its pairs are tight, which is that what the student
//! gains and what the place costs are the pair's worth, if it places each student who gains, and if it fills each place that costs
//! (complementary slackness). So they come from one another by exchanges over tight pairs (`exchange.rt`), and prices stay.

use crate::admit::come;
use crate::exchange::Exchange;
use crate::padded::Padded;
use crate::state::{Network, Node};
use sha2::{Digest, Sha256};
use spa::Instance;
use std::alloc::{AllocError, Global};

/// The places that best matchings can give each student: projects in the order of the list, and at last to go without.
#[derive(Drop)]
pub(crate) struct Options {
    places: Vec<usize>,
    /// Where the places of each student begin, and end where those of the next begin.
    starts: Padded<usize>,
}

impl Options {
    /// Returns the places of a student, or none of one who has a single one, and so keeps it.
    pub(crate) fn of(&self, student: usize) -> &[usize] {
        let start = self.starts[student];
        let end = self.starts[student.wrapping_add(1)];
        match self.places.get(start..end) {
            Some(places) => places,
            None => &[],
        }
    }

    /// Adds the next student of a network.
    fn add(&mut self, network: &Network, student: usize, nowhere: usize) -> Result<(), AllocError> {
        let start = self.places.len();
        let gain = network.students[student].potential;
        for (project, worth) in network.list(student).iter().zip(&network.worths) {
            if worth.wrapping_sub(network.nodes[*project].potential) == gain {
                self.places.push(*project)?;
            }
        }
        if gain == 0 {
            self.places.push(nowhere)?;
        }
        if self.places.len() < start.wrapping_add(2) {
            self.places.truncate(start);
        }
        self.starts.items.push(self.places.len())?;
        Ok(())
    }

    /// Returns the places of all students of a network.
    fn start(alloc: Global, network: &Network, nowhere: usize) -> Result<Options, AllocError> {
        let mut options = Options {
            places: Vec::new(alloc),
            starts: Padded::filled(alloc, 1, 0)?,
        };
        for student in 0..network.students.items.len() {
            options.add(network, student, nowhere)?;
        }
        Ok(options)
    }
}

/// Returns the students who have a choice, in the order of their numbers.
fn numbered(
    alloc: Global,
    instance: &Instance,
    options: &Options,
) -> Result<Vec<([u8; 32], usize)>, AllocError> {
    let mut numbered = Vec::new(alloc);
    for (student, code) in instance.student_codes().iter().enumerate() {
        if !options.of(student).is_empty() {
            numbered.push((Sha256::digest(code.as_str()), student))?;
        }
    }
    numbered.sort()?;
    Ok(numbered)
}

/// Makes to go without a place of the network, which all have who have no project, and returns it.
fn open_nowhere(alloc: Global, network: &mut Network) -> Result<usize, AllocError> {
    let nowhere = network.nodes.items.len();
    network.nodes.items.push(Node {
        potential: 0,
        quota: 0,
        taken: 0,
        supervisor: nowhere,
    })?;
    network.inside.items.push(Vec::new(alloc))?;
    for student in 0..network.students.items.len() {
        if network.students[student].project.is_none() {
            come(network, student, nowhere)?;
        }
    }
    Ok(nowhere)
}

/// Gives the students of a network that has a best matching the places of the lot. Its potentials stay, but it has a place more.
pub(crate) fn draw(alloc: Global, network: &mut Network) -> Result<(), AllocError> {
    let nowhere = open_nowhere(alloc, network)?;
    let options = Options::start(alloc, network, nowhere)?;
    let mut exchange = Exchange::start(alloc, network, nowhere)?;
    for (_, student) in numbered(alloc, network.instance, &options)? {
        exchange.settle(network, &options, student)?;
    }
    Ok(())
}
