//! What each step on the table tells.
ghost use Rattle.turn_lock.specs.Turns.{Draws, Looks, Passes, Numbers, seated_from, joined, blank};

use crate::board::{Turned, View};
use atomic_table::{Join, Play, Split};
use std::marker::PhantomData;

/// Drawing a ticket.
pub(crate) struct Drawing;

impl<V, O, E> Play<Option<V>, View<O, E>> for Drawing {
    ghost then = { λ _ m found n. Draws m found n };
}

/// Looking whether its turn has come; if so, the value is taken.
pub(crate) struct Looking<V> {
    of: PhantomData<V>,
}

impl<V: Turned> Play<Option<V>, View<V::Opening, V::Entry>> for Looking<V> {
    ghost then = { λ _ m found n. Looks V.opening V.history V.number m found n };
}

/// Giving the value back and passing the turn on.
pub(crate) struct Passing<V> {
    of: PhantomData<V>,
}

impl<V: Turned> Play<Option<V>, View<V::Opening, V::Entry>> for Passing<V> {
    ghost then = { λ _ m _ n. Passes V.history m n };
}

/// Taking a number.
pub(crate) struct Numbering;

impl<V, O, E> Play<Option<V>, View<O, E>> for Numbering {
    ghost then = { λ s m found n. Numbers s m found n };
}

/// Making a seat from another.
pub(crate) struct Splitting;

impl<O, E> Split<View<O, E>> for Splitting {
    ghost left = { λ v. v };

    ghost right = { λ v. seated_from v };
}

/// Taking in another seat.
pub(crate) struct Joining;

impl<O, E> Join<View<O, E>> for Joining {
    ghost both = { λ v w. joined v w };

    ghost spent = { blank };
}
