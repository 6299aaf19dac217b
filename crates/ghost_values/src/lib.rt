//! Ghost values, which only contracts read: for example the bytes that should have been printed, or the system
//! calls that a file has answered. They take no memory and cost no time when the program runs.
//!
//! `Ghost::of` makes a `Ghost`, and `Ghost::after` makes one from an earlier `Ghost` and a new value. The
//! caller's proof chooses the value (`ghost-of`, `ghost-after` in its `Invariants.antt`), so the caller's own
//! contract says what the value is.
//!
//! Proved: a `Ghost` can be made with any value that the proof chooses. Since it has no bytes, `of` is proved
//! by hand, and nothing else is.
#![tactic(auto)]

ghost use Rattle.std.specs.Prelude.{◌≡◌, [], List};
ghost use Rattle.std.specs.Borrow.{ftrue};

use std::marker::{Model, PhantomData};

/// A list type as contracts see it, for use in a `Ghost`. No value of it exists at run time.
pub struct ListOf<T> {
    marker: PhantomData<T>,
}

impl<T> Model for ListOf<T> {
    ghost Value = { List T };

    ghost view = { λ _. [] };
}

/// A `T` as contracts see it, in the ghost field `value`.
pub struct Ghost<T> {
    marker: PhantomData<T>,
    pub ghost value: { T },
}

impl<T> Model for Ghost<T> {
    ghost also_owns = { λ _. ftrue };
}

// Not derived, because a derived implementation would require `T: Drop`. A type that only contracts read need
// not be `Drop`.
impl<T> Drop for Ghost<T> {
    fn drop(self) {
        let Ghost { marker: _ } = self;
    }
}

impl<T> Ghost<T> {
    /// Returns a `Ghost` with the value that the caller's proof chooses.
    pub fn of() -> Ghost<T>
        ghost value: { T }
        ensures { result.value ≡ value }
    {
        Ghost {
            marker: PhantomData,
        }
    }

    /// Returns a `Ghost` with the value that the caller's proof chooses, which may depend on this `Ghost` and on
    /// the argument.
    pub fn after<A: Copy>(&self, _more: A) -> Ghost<T>
        ghost value: { T }
        ensures { result.value ≡ value }
    {
        Ghost::of()
    }
}
