//! A place for one value, on the heap or nowhere.

ghost use Rattle.std.specs.Prelude.{◌≡◌, Option, Some, None};
ghost use Rattle.std.specs.Option.{MatchOption};
ghost use Rattle.std.specs.Coded.{coded_option};
ghost use Rattle.krb_c.specs.Handle.{handle_owns};

use crate::raw_box::RawBox;
use std::alloc::Global;
use std::marker::Model;
use std::ptr::null_mut;

/// A pointer to a value in a box, or null. Each handle for C is one: C can't have a generic type,
/// so it has a struct of the same fields for each type of value.
pub(crate) struct Place<T> {
    pub(crate) at: *mut T,
    pub(crate) alloc: Global,
    pub(crate) ghost value: { Option T } by { coded_option T.code },
}

impl<T> Model for Place<T> {
    ghost also_owns = { λ p. handle_owns T.row p.alloc p.at p.value };
}

impl<T> Place<T> {
    pub(crate) fn empty(alloc: Global) -> Place<T>
        ensures { result.value ≡ None }
    {
        Place {
            at: null_mut(),
            alloc,
        }
    }

    fn of_raw(raw: RawBox<T, Global>) -> Place<T>
        ensures { result.value ≡ Some raw.value }
    {
        let RawBox { at, alloc } = raw;
        Place { at, alloc }
    }

    fn into_raw(self) -> Option<RawBox<T, Global>>
        ensures { MatchOption result (self.value ≡ None) (λ raw. self.value ≡ Some raw.value) }
    {
        let Place { at, alloc } = self;
        if at.is_null() {
            None
        } else {
            Some(RawBox { at, alloc })
        }
    }
}

impl<T: Drop> Place<T> {
    pub(crate) fn of(value: Box<T>) -> Place<T>
        ensures { result.value ≡ Some value.value }
    {
        Place::of_raw(RawBox::of(value))
    }

    pub(crate) fn into_box(self) -> Option<Box<T>>
        ensures { MatchOption result (self.value ≡ None) (λ b. self.value ≡ Some b.value) }
    {
        match self.into_raw() {
            None => None,
            Some(raw) => Some(raw.into_box()),
        }
    }
}
