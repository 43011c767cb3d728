//! What each atomic step tells the seat that makes it. These types are for the proofs alone.

ghost use Rattle.turn_lock.specs.Tells.{opened, locked, added, freed, claimed, put, same, fetched, done, collected};
ghost use Rattle.turn_lock.specs.Tells.{left, compared};
ghost use Rattle.turn_lock.specs.Seats.{split_view, joined_view, spent_view};

use crate::seat::{Held, View};
use crate::turned::{Out, Turned, Work};
use atomic_table::{Join, Play, Split};
use std::marker::{Brand, PhantomData};

pub struct Open;

impl<T, O, E, W, A> Play<Option<Held<T, W, A>>, View<O, E, W>> for Open {
    ghost then = { opened };
}

pub struct Lock;

impl<T: Turned> Play<Option<Held<T, T::Work, Out<T>>>, View<T::Opening, T::Entry, T::Work>>
    for Lock {
    ghost then = { locked T.stands };
}

/// Names the entries of one turn, which no code holds. Each turn picks its own.
pub trait Named<E> {
    ghost use Rattle.std.specs.Prelude.{List};

    ghost entries: { List E };
}

impl<E> Named<E> for Brand {
    ghost use Rattle.std.specs.Prelude.{[]};

    ghost entries = { [] };
}

pub struct Add<J> {
    of: PhantomData<J>,
}

impl<T: Turned, J: Named<T::Entry>> Play<
    Option<Held<T, T::Work, Out<T>>>,
    View<T::Opening, T::Entry, T::Work>,
> for Add<J> {
    ghost then = { added T.kept J.entries };
}

pub struct Free;

impl<T, O, E, W, A> Play<Option<Held<T, W, A>>, View<O, E, W>> for Free {
    ghost then = { freed };
}

pub struct Claim;

impl<T, O, E, W, A> Play<Option<Held<T, W, A>>, View<O, E, W>> for Claim {
    ghost then = { claimed };
}

pub struct Put;

impl<T, O, E, W, A> Play<Option<Held<T, W, A>>, View<O, E, W>> for Put {
    ghost then = { put };
}

pub struct Same;

impl<T, O, E, W, A> Play<Option<Held<T, W, A>>, View<O, E, W>> for Same {
    ghost then = { same };
}

pub struct Fetch;

impl<T, O, E, W, A> Play<Option<Held<T, W, A>>, View<O, E, W>> for Fetch {
    ghost then = { fetched };
}

pub struct Finish<J> {
    of: PhantomData<J>,
}

impl<T: Turned, J: Named<T::Entry>> Play<
    Option<Held<T, T::Work, Out<T>>>,
    View<T::Opening, T::Entry, T::Work>,
> for Finish<J> {
    ghost then = { done J.entries };
}

pub struct Collect;

impl<T: Turned> Play<Option<Held<T, T::Work, Out<T>>>, View<T::Opening, T::Entry, T::Work>>
    for Collect {
    ghost then = { collected T.stands T.kept T.Work.entries T.Work.gives };
}

pub struct Leave;

impl<T, O, E, W, A> Play<Option<Held<T, W, A>>, View<O, E, W>> for Leave {
    ghost then = { left };
}

pub struct Compare;

impl<T: Turned> Play<Option<Held<T, T::Work, Out<T>>>, View<T::Opening, T::Entry, T::Work>>
    for Compare {
    ghost then = { compared T.kept };
}

pub struct Parts;

impl<O, E, W> Split<View<O, E, W>> for Parts {
    ghost left = { λ v. v };

    ghost right = { split_view };
}

impl<O, E, W> Join<View<O, E, W>> for Parts {
    ghost both = { joined_view };

    ghost spent = { spent_view };
}
