//! Lists with an item at each position.

use std::alloc::{AllocError, Global};
use std::ops::{Index, IndexMut};

/// Items, and a spare one that stands for all past the end. No position that is used is past it, but nothing rests on that.
#[derive(Drop)]
pub(crate) struct Padded<T> {
    pub items: Vec<T>,
    pub spare: T,
}

impl<T> Index<usize> for Padded<T> {
    type Output = T;

    fn index(&self, i: usize) -> &T {
        match self.items.get(i) {
            Some(item) => item,
            None => &self.spare,
        }
    }
}

impl<T> IndexMut<usize> for Padded<T> {
    fn index_mut(&mut self, i: usize) -> &mut T {
        match self.items.get_mut(i) {
            Some(item) => item,
            None => &mut self.spare,
        }
    }
}

impl<T: Copy> Padded<T> {
    /// Returns the same item `count` times.
    pub(crate) fn filled(alloc: Global, count: usize, item: T) -> Result<Padded<T>, AllocError> {
        let mut items = Vec::with_capacity(alloc, count)?;
        for _ in 0..count {
            items.push(item)?;
        }
        Ok(Padded { items, spare: item })
    }
}
