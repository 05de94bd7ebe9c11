//! Reads and writes of lists, where a place may be past the end.

/// A part of a list: the place of its first item, and how many items it has.
#[derive(Clone, Copy)]
pub struct Stretch {
    pub first: usize,
    pub count: usize,
}

impl Stretch {
    /// The place of an item of the part.
    pub fn place(self, number: usize) -> usize {
        self.first.saturating_add(number)
    }
}

/// No items.
pub const EMPTY: Stretch = Stretch { first: 0, count: 0 };

/// The item at a place, or `other` if there is no such place.
pub fn at<T: Copy>(items: &Vec<T>, place: usize, other: T) -> T {
    match items.get(place) {
        Some(item) => *item,
        None => other,
    }
}

/// Puts an item at a place, if there is such a place.
pub fn put<T: Copy>(items: &mut Vec<T>, place: usize, item: T) {
    if place < items.len() {
        items[place] = item;
    }
}

/// Puts a list in place of another, and gives that.
pub fn take<T>(list: &mut Vec<T>, other: Vec<T>) -> Vec<T> {
    std::mem::replace(list, other)
}
