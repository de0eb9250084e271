//! A value that only clauses read, carried by real code.
ghost use Rattle.std.specs.Prelude.{◌≡◌, None};
ghost use base.Fml.{ftrue};

use std::marker::{Model, PhantomData};

/// What a note made of a value says: a function of that value.
pub trait Says<T> {
    ghost says: { Self → T };
}

/// What is claimed of a note: a fact on it and a value.
pub trait Claims<T> {
    ghost claims: { Self → T → Type 0 };
}

/// A value of `T` that clauses read. It has no bytes and owns nothing: no `T` is made.
pub struct Note<T> {
    marker: PhantomData<T>,
    pub ghost value: { T },
}

impl<T> Model for Note<T> {
    ghost also_owns = { λ _. ftrue };
}

impl<T> Note<T> {
    /// The note that says this.
    pub fn of<X: Says<T>>(x: &X) -> Note<T>
        ensures { result.value ≡ X.says x.now }
    {
        let _ = x;
        Note {
            marker: PhantomData,
        }
    }

    /// A note of which this is claimed, where there is a value of which it holds.
    pub fn some<X: Claims<T>>(x: &X) -> Note<T>
        requires { (value : T) × X.claims x.now value }
        ensures { X.claims x.now result.value }
    {
        let _ = x;
        Note {
            marker: PhantomData,
        }
    }
}

// What a note of nothing is made of.
#[derive(Drop)]
struct Nothing {}

impl<T> Says<Option<T>> for Nothing {
    ghost use Rattle.std.specs.Prelude.{None};

    ghost says = { λ _. None };
}

/// A note of no value.
pub fn no_note<T>() -> Note<Option<T>>
    ensures { result.value ≡ None }
{
    Note::of(&Nothing {})
}

unsafe impl<T> Send for Note<T> {}

unsafe impl<T> Sync for Note<T> {}

impl<T> Drop for Note<T> {
    fn drop(self) {
        let Self { marker: _ } = self;
    }
}
