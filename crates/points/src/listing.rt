//! A `Vec` whose capacity contracts don't see.
//!
//! Two lists of the same items may differ in their capacity, so a type whose values are compared keeps a `Listing`,
//! which is made of a `Vec` and read as a slice.

ghost use Rattle.std.specs.Prelude.{◌≡◌};

use std::marker::Model;
use std::ops::DerefSlice;

/// A list that contracts see as its items alone. It is made of a `Vec` without taking memory, and read as a slice.
#[derive(Debug, Drop)]
pub struct Listing<T> {
    items: Vec<T>,
}

impl<T> Model for Listing<T> {
    ghost use Rattle.std.specs.Prelude.{List};

    ghost Value = { List T };

    ghost view = { λ listing. listing.items.items };
}

impl<T> Listing<T> {
    /// The items of a `Vec`, in its order.
    pub fn from_vec(items: Vec<T>) -> Self
        ensures { result ≡ items.items }
    {
        Listing { items }
    }

    /// The items as a slice.
    pub fn as_slice(&self) -> &[T]
        ensures { result.now ≡ self.now }
    {
        self.items.as_slice()
    }
}

/// A listing is read like the slice of its items.
impl<T> DerefSlice for Listing<T> {
    type Elem = T;

    ghost deref_gives = { λ listing items. items ≡ listing };

    fn deref(&self) -> &[T] {
        self.as_slice()
    }
}
