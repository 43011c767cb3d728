//! Who takes turns, and what it knows.

use crate::turned::{Out, Turned, Work};
use std::collections::LinkedList;

/// What a seat knows. It is there for contracts alone: no value of it is made.
pub struct Known<O, E> {
    /// What the value was when the lock was made.
    pub opening: Option<O>,
    /// A beginning of the history: all that the seat was told of.
    pub seen: LinkedList<E>,
    /// The places in the history of the entries that are its own, ascending.
    pub mine: LinkedList<u64>,
    /// It may make the entries that are kept for the first seat. At most one seat of a lock may.
    pub first: bool,
}

/// Whether a seat has the value.
pub enum Stage<E> {
    /// It has the lock from the start, and the value is not in it yet.
    Opens,
    Idle,
    /// It has the value, which stands for this history.
    Works(LinkedList<E>),
}

/// What a seat has at one of the places of the table.
pub enum Post<W> {
    Nowhere,
    /// The place is its own, and the slot is out with it.
    Claims(u64),
    /// It has put this work there, and waits for the answer.
    Posts(u64, W),
}

/// Whether a seat that works has the work of a place.
pub enum Hand<W> {
    Empty,
    Holds(u64, W),
}

/// What the rule of the lock says of a seat. No value of it is made.
pub struct View<O, E, W> {
    pub known: Known<O, E>,
    /// The shorter of the two beginnings that a join has put together, until they are compared.
    pub merged: LinkedList<E>,
    pub stage: Stage<E>,
    pub hand: Hand<W>,
    pub post: Post<W>,
}

/// What lies in a slot of the table.
#[derive(Drop)]
pub enum Held<T, W, A> {
    Value(T),
    Asked(W),
    Answered(A),
}

/// Who takes turns. It has no bytes, and may go to another thread.
pub type Seat<T> = atomic_table::Seat<
    Option<Held<T, <T as Turned>::Work, Out<T>>>,
    View<<T as Turned>::Opening, <T as Turned>::Entry, <T as Turned>::Work>,
>;
