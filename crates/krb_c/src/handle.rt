//! How a handle for C holds a value, and how calls get at it.

ghost use Rattle.std.specs.Prelude.{◌≡◌, Option, Some, None};
ghost use Rattle.std.specs.Option.{MatchOption};

use crate::place::Place;
use std::alloc::Global;
use std::mem::replace;

/// A handle for C: a place by another name. C can't have a generic type, so each type of value has
/// a struct of its own with the fields of a place.
pub(crate) trait Handle: Sized {
    /// What it holds.
    type Value: Drop;

    ghost held: { Self → Option Self.Value };

    /// The handle for a place.
    fn of_place(place: Place<Self::Value>) -> Self
        ensures { held result ≡ place.value };

    /// The place of a handle.
    fn into_place(self) -> Place<Self::Value>
        ensures { result.value ≡ held self };
}

/// The empty handle.
pub(crate) fn empty<H: Handle>(alloc: Global) -> H
    ensures { H.held result ≡ None }
{
    H::of_place(Place::empty(alloc))
}

/// Takes what the handle holds. The handle is empty then.
pub(crate) fn take<H: Handle>(handle: &mut H, alloc: Global) -> Option<Box<H::Value>>
    ensures empty { H.held handle.new ≡ None }
    ensures taken { MatchOption result (H.held handle.old ≡ None) (λ value. H.held handle.old ≡ Some value.value) }
{
    replace(handle, empty(alloc)).into_place().into_box()
}

/// Makes the handle hold a value. What it held is freed.
pub(crate) fn put<H: Handle>(handle: &mut H, value: Box<H::Value>)
    ensures { H.held handle.new ≡ Some value.value }
{
    free(replace(handle, H::of_place(Place::of(value))));
}

/// Answers by what the handle holds, which stays in it; an empty handle is a code.
macro_rules! with_held {
    ($handle:expr, $alloc:expr, $held:ident => $answer:expr) => {{
        let Some(mut $held) = $crate::handle::take($handle, $alloc) else {
            return $crate::structs::Answer::plain($crate::code::EMPTY_HANDLE);
        };
        let answer = $answer;
        $crate::handle::put($handle, $held);
        answer
    }};
}

pub(crate) use with_held;

/// Frees what the handle holds.
pub(crate) fn free<H: Handle>(handle: H) {
    match handle.into_place().into_box() {
        None => {}
        Some(value) => drop(value),
    }
}
