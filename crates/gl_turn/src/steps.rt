//! What each step on the table tells the pass that takes it.
ghost use Rattle.gl_turn.specs.View.{heir, merged, passed_on};
ghost use Rattle.gl_turn.specs.Steps.{drawn, counted, handed_on, learned, looked};

use crate::shared::Stands;
use crate::view::{Told, View};
use atomic_table::{Join, Play, Split};
use std::marker::PhantomData;

pub(crate) struct Cut;

impl<S, E> Split<View<S, E>> for Cut {
    ghost left = { λ v. v };

    ghost right = { heir };
}

pub(crate) struct Merge;

impl<S, E> Join<View<S, E>> for Merge {
    ghost both = { merged };

    ghost spent = { passed_on };
}

pub(crate) struct Learn;

impl<S, E> Play<Option<S>, View<S, E>> for Learn {
    ghost then = { learned };
}

pub(crate) struct Draw;

impl<S, E> Play<Option<S>, View<S, E>> for Draw {
    ghost then = { drawn };
}

pub(crate) struct Look<S> {
    state: PhantomData<S>,
}

impl<S: Stands> Play<Option<S>, View<S, S::Entry>> for Look<S> {
    ghost then = { looked S.stands };
}

pub(crate) struct Count<M> {
    made: PhantomData<M>,
}

impl<S, E, M: Told<E>> Play<Option<S>, View<S, E>> for Count<M> {
    ghost then = { counted M.told };
}

pub(crate) struct HandOn;

impl<S, E> Play<Option<S>, View<S, E>> for HandOn {
    ghost then = { handed_on };
}
