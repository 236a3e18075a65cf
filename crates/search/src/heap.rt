//! The frontier of a search: the nodes that it has reached, with their labels, the least first.

use crate::labels::Packed;
use crate::padded::Padded;
use std::alloc::{AllocError, Global};

/// How many levels a heap can have.
const DEPTH: u32 = 64;

/// The residual arc by which a search came to a node.
#[derive(Clone, Copy)]
pub(crate) enum Arc {
    /// This student takes the project.
    Student(usize),
    /// From this project, which has room, to its supervisor.
    Up(usize),
    /// From this supervisor to the project, which has a student fewer.
    Down(usize),
}

/// Where a node stands.
#[derive(Clone, Copy)]
enum Standing {
    Unseen,
    /// At this position of the heap.
    Waiting(usize),
    /// Settled, or to be settled next.
    Settled,
}

/// Where an augmenting walk ends.
#[derive(Clone, Copy)]
pub(crate) enum End {
    /// At once: the student who is admitted has no place.
    Start,
    /// This student takes this project, which has room, as has its supervisor.
    Room(usize, usize),
    /// This student loses a place.
    Out(usize),
}

/// What a search knows of a node.
#[derive(Clone, Copy)]
pub(crate) struct Mark {
    /// What the cheapest walk to it that was seen costs, and its last arc.
    pub label: Packed,
    pub arc: Arc,
    standing: Standing,
}

const BLANK: Mark = Mark {
    label: 0,
    arc: Arc::Student(0),
    standing: Standing::Unseen,
};

/// The nodes that a search has reached.
#[derive(Drop)]
pub(crate) struct Frontier {
    pub marks: Padded<Mark>,
    heap: Padded<usize>,
    /// Nodes reached at the label that was settled last, so that none is nearer.
    level: Vec<usize>,
    /// The nodes that were taken from the frontier, in this order.
    pub settled: Vec<usize>,
    /// The label that was settled last.
    last: Packed,
    /// What a walk to the best end that was seen costs, and that end.
    pub best: Packed,
    pub end: End,
}

/// Makes these nodes not reached any more.
fn forget(marks: &mut Padded<Mark>, nodes: &mut Vec<usize>) {
    for node in nodes.iter() {
        marks[*node].standing = Standing::Unseen;
    }
    nodes.clear();
}

impl Frontier {
    /// Creates a frontier of `count` nodes, none of which is reached.
    pub(crate) fn start(alloc: Global, count: usize) -> Result<Frontier, AllocError> {
        Ok(Frontier {
            marks: Padded::filled(alloc, count, BLANK)?,
            heap: Padded::filled(alloc, 0, 0)?,
            level: Vec::new(alloc),
            settled: Vec::new(alloc),
            last: 0,
            best: 0,
            end: End::Start,
        })
    }

    /// Begins anew: no node is reached any more, and to end at once costs this much.
    pub(crate) fn restart(&mut self, gain: Packed) {
        // Only nodes that the last search reached: so a search costs what it reaches, however many nodes there are.
        forget(&mut self.marks, &mut self.heap.items);
        forget(&mut self.marks, &mut self.level);
        forget(&mut self.marks, &mut self.settled);
        self.last = 0;
        self.best = gain;
        self.end = End::Start;
    }

    /// Takes an end, if a walk to it costs less than to the best so far.
    pub(crate) fn offer(&mut self, label: Packed, end: End) {
        if label < self.best {
            self.best = label;
            self.end = end;
        }
    }

    /// Puts a node at this position of the heap.
    fn put(&mut self, i: usize, node: usize) {
        self.heap[i] = node;
        self.marks[node].standing = Standing::Waiting(i);
    }

    /// Moves a node up from this position of the heap to where its label belongs.
    fn rise(&mut self, from: usize, node: usize, label: Packed) {
        let mut i = from;
        // Never met, since a heap of 64 levels fits in no memory: it is promised that each loop ends, and nothing of the order.
        for _ in 0..DEPTH {
            if i == 0 {
                break;
            }
            let above = (i - 1) / 2;
            let other = self.heap[above];
            if self.marks[other].label <= label {
                break;
            }
            self.put(i, other);
            i = above;
        }
        self.put(i, node);
    }

    /// Returns the position of the lesser of the two below this one in the heap, its node and its label, if there is one.
    fn below(&self, i: usize) -> Option<(usize, usize, Packed)> {
        let left = i.wrapping_mul(2).wrapping_add(1);
        let right = left.wrapping_add(1);
        let node = *self.heap.items.get(left)?;
        let label = self.marks[node].label;
        if let Some(other) = self.heap.items.get(right) {
            let least = self.marks[*other].label;
            if least < label {
                return Some((right, *other, least));
            }
        }
        Some((left, node, label))
    }

    /// Moves a node down from the top of the heap to where its label belongs.
    fn sink(&mut self, node: usize) {
        let label = self.marks[node].label;
        let mut i = 0;
        for _ in 0..DEPTH {
            let Some((below, other, least)) = self.below(i) else {
                break;
            };
            if label <= least {
                break;
            }
            self.put(i, other);
            i = below;
        }
        self.put(i, node);
    }

    /// Reaches a node by an arc, with a walk at this label.
    pub(crate) fn reach(&mut self, node: usize, label: Packed, arc: Arc) -> Result<(), AllocError> {
        let mark = &mut self.marks[node];
        match mark.standing {
            // No open node can be nearer, so this one needs no place in the heap, and its label is final.
            Standing::Unseen if label == self.last => {
                mark.label = label;
                mark.arc = arc;
                mark.standing = Standing::Settled;
                self.level.push(node)?;
            }
            Standing::Unseen => {
                mark.label = label;
                mark.arc = arc;
                let i = self.heap.items.len();
                self.heap.items.push(node)?;
                self.rise(i, node, label);
            }
            Standing::Waiting(i) if label < mark.label => {
                mark.label = label;
                mark.arc = arc;
                self.rise(i, node, label);
            }
            // Settled, or no nearer than before. Potentials keep arcs from being negative, so no later walk to a settled node is cheaper.
            _ => {}
        }
        Ok(())
    }

    /// Takes the next node out of the frontier.
    fn pop(&mut self) -> Option<usize> {
        if let Some(node) = self.level.pop() {
            return Some(node);
        }
        let node = *self.heap.items.first()?;
        let last = self.heap.items.pop()?;
        // With one node in the heap the first is the last, and nothing has to sink.
        if !self.heap.items.is_empty() {
            self.sink(last);
        }
        Some(node)
    }

    /// Settles the next node, and returns it if its label is below that of the best end.
    pub(crate) fn settle(&mut self) -> Result<Option<usize>, AllocError> {
        let Some(node) = self.pop() else {
            return Ok(None);
        };
        // Before its label is looked at: it has left the heap, and `restart` has to find it.
        self.settled.push(node)?;
        self.last = self.marks[node].label;
        self.marks[node].standing = Standing::Settled;
        Ok(if self.last < self.best {
            Some(node)
        } else {
            None
        })
    }
}
