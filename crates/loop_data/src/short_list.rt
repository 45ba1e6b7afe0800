//! A short list that contracts see as a list.

ghost use Rattle.std.specs.Prelude.{◌≡◌};

use smallvec::SmallVec;
use std::marker::Model;

/// A short list: up to three items take no memory. Contracts see the items.
#[derive(Drop)]
pub struct ShortListOf<T> {
    items: SmallVec<T, 3>,
}

impl<T> Model for ShortListOf<T> {
    ghost use Rattle.std.specs.Prelude.{List};

    ghost Value = { List T };

    ghost view = { λ l. l.items.items };
}

impl<T> ShortListOf<T> {
    /// These items.
    pub fn new(items: SmallVec<T, 3>) -> ShortListOf<T>
        ensures { result ≡ items.items }
    {
        ShortListOf { items }
    }

    /// The items, in order.
    pub fn as_slice(&self) -> &[T]
        ensures { result.now ≡ self.now }
    {
        self.items.as_slice()
    }

    /// The items, given back without taking memory.
    pub fn into_list(self) -> SmallVec<T, 3>
        ensures { result.items ≡ self }
    {
        let Self { items } = self;
        items
    }
}
