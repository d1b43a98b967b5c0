//! What contracts see of the list. The code keeps no value of these types.
use std::collections::LinkedList;

/// An entry of the list, and the number of the caller that it was made for.
pub struct Appended<E> {
    pub by: u16,
    pub entry: E,
}

/// An entry of a pass's own, and its number in the whole list, from 1.
pub struct Own<E> {
    pub row: u32,
    pub entry: E,
}

/// What one pass knows: its number, the list that it has seen, and its own entries.
pub struct Known<E> {
    pub by: u16,
    pub seen: LinkedList<Appended<E>>,
    pub mine: LinkedList<Own<E>>,
}
