//! The holes of a keytab, which take entries.

ghost use Rattle.std.specs.Prelude.{◌≡◌, ◌<◌, All, IfOk, MatchOption, length, map, slice_index_or, slice_set};
ghost use Rattle.krb_keytab.specs.Inner.Room.{IsTaken};

use crate::finding::{Extent, Gather};
use krb_index::Maxima;
use std::alloc::{AllocError, Global};
use std::marker::Model;

/// A hole: the offset of its size, and how many bytes it has with that size.
#[derive(Drop)]
pub(crate) struct Hole {
    pub(crate) from: usize,
    pub(crate) size: usize,
}

/// The holes of a file that no entry has taken, in their order. A contract sees them as their list.
#[derive(Drop)]
pub(crate) struct Holes {
    // All holes of the file. Those that were taken have no bytes.
    holes: Vec<Hole>,
    sizes: Maxima,
}

impl Model for Holes {
    ghost use Rattle.std.specs.Prelude.{◌≡◌, List, map};
    ghost use Rattle.krb_keytab.specs.Inner.Holes.{free};
    ghost use Rattle.krb_keytab.specs.declared.holes.Hole.{Hole};

    ghost Value = { List Hole };

    ghost view = { λ h. free h.holes.items };

    ghost invariant = { λ h. h.sizes ≡ map (λ (hole : Hole). hole.size) h.holes.items };
}

impl Holes {
    /// Makes the list of these holes.
    pub(crate) fn new(alloc: Global, holes: Vec<Hole>) -> Result<Holes, AllocError>
        requires { All (λ hole. 0 < hole.size) holes.items }
        ensures { IfOk result (λ made. made ≡ holes.items) }
    {
        let sizes = Maxima::new(alloc, &sizes_of(alloc, &holes)?)?;
        Ok(Holes { holes, sizes })
    }

    /// Takes the first hole of at least so many bytes out of the list.
    pub(crate) fn take(&mut self, size: usize) -> Option<Hole>
        requires { 0 < size }
        ensures { MatchOption result
            (All (λ hole. hole.size < size) self.old × (self.new ≡ self.old))
            (λ hole. IsTaken self.old size hole self.new) }
    {
        match self.sizes.first(size) {
            Some(at) => {
                self.sizes.clear(at);
                Some(taken_at(&mut self.holes, at))
            }
            None => None,
        }
    }
}

fn sizes_of(alloc: Global, holes: &[Hole]) -> Result<Vec<usize>, AllocError>
    ensures { IfOk result (λ sizes. sizes.items ≡ map (λ hole. hole.size) holes.now) }
{
    let mut sizes = Vec::with_capacity(alloc, holes.len())?;
    for hole in holes {
        sizes.push(hole.size)?;
    }
    Ok(sizes)
}

// Returns the hole at a place, and leaves it without bytes.
fn taken_at(holes: &mut Vec<Hole>, at: usize) -> Hole
    requires { at < length holes.old.items }
    ensures hole { result ≡ slice_index_or holes.old.items at result }
    ensures left { holes.new.items ≡ slice_set holes.old.items at (record result { size = 0 }) }
{
    let hole = &mut holes[at];
    let taken = Hole {
        from: hole.from,
        size: hole.size,
    };
    hole.size = 0;
    taken
}

impl Gather for Vec<Hole> {
    ghost use Rattle.std.specs.Prelude.{⊤, length};
    ghost use Rattle.krb_keytab.specs.Format.{version};
    ghost use Rattle.krb_keytab.specs.Inner.Room.{holes_of};

    ghost has = { λ start records now. now.items ≡ holes_of (length version) records };

    ghost allocates = { ⊤ };

    fn hole(&mut self, place: Extent) -> Result<(), AllocError> {
        let size = place.to - place.from;
        Ok(self.push(Hole {
            from: place.from,
            size,
        })?)
    }

    #[tactic(auto, using(crate::proofs::RoomLaws::entry_more))]
    fn entry(&mut self, _place: Extent) -> Result<(), AllocError> {
        Ok(())
    }
}
