//! The rule of the shared table, and its steps.
ghost use Rattle.board.specs.inner.Steps.{Keeps, Drew, Looked, Posted, rest_of, both};
ghost use Rattle.board.specs.Views.{blank};

use crate::view::{Terms, View};
use atomic_table::{Join, Play, Split, TableRule};

pub(crate) struct Fair;

impl TableRule<(), View, Terms> for Fair {
    ghost holds = { Keeps };

    ghost first = { λ terms. blank terms.passes };
}

/// A `fetch_add` of 1 on word 0.
pub(crate) struct Draw;

impl Play<(), View> for Draw {
    ghost then = { Drew };
}

/// A load of a loop's word.
pub(crate) struct Look;

impl Play<(), View> for Look {
    ghost then = { Looked };
}

/// A `fetch_min` on a loop's word.
pub(crate) struct Post;

impl Play<(), View> for Post {
    ghost then = { Posted };
}

/// One part leaves for a new pass, in which nothing was done.
pub(crate) struct Issue;

impl Split<View> for Issue {
    ghost left = { rest_of };

    ghost right = { λ _. blank 1 };
}

/// A pass takes in what another did, and its parts.
pub(crate) struct TakeIn;

impl Join<View> for TakeIn {
    ghost both = { both };

    ghost spent = { blank 0 };
}
