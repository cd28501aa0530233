//! Parts that are written one after another, in nested pairs.

ghost use Rattle.std.specs.Prelude.{◌<◌, ◌^◌, ◌++◌};
ghost use Rattle.std.specs.Int.{w32};
ghost use Rattle.krb_file.specs.Cursor.{number_bytes};
ghost use Rattle.krb_ccache.specs.Spelling.{flag_bytes};

use crate::part::Part;
use crate::writing::write_u32;
use std::alloc::AllocError;

impl<A: Part, B: Part> Part for (A, B) {
    ghost spelled = { λ pair. A.spelled pair.0 ++ B.spelled pair.1 };

    ghost Fits = { λ pair. A.Fits pair.0 × B.Fits pair.1 };

    ghost InRange = { λ pair. A.InRange pair.0 × B.InRange pair.1 };

    fn fits(&self) -> bool {
        self.0.fits() && self.1.fits()
    }

    #[tactic(auto, using(crate::proofs::RoomLaws::sizes))]
    fn behind(&self, left: usize) -> Option<usize> {
        self.1.behind(self.0.behind(left)?)
    }

    fn write(&self, out: &mut Vec<u8>) -> Result<(), AllocError> {
        self.0.write(out)?;
        self.1.write(out)
    }
}

impl<T: Part> Part for &T {
    ghost spelled = { λ part. T.spelled part.now };

    ghost Fits = { λ part. T.Fits part.now };

    ghost InRange = { λ part. T.InRange part.now };

    fn fits(&self) -> bool {
        (**self).fits()
    }

    fn behind(&self, left: usize) -> Option<usize> {
        (**self).behind(left)
    }

    fn write(&self, out: &mut Vec<u8>) -> Result<(), AllocError> {
        (**self).write(out)
    }
}

impl Part for u32 {
    ghost spelled = { number_bytes w32 };

    ghost Fits = { λ _. Unit {0} };

    ghost InRange = { λ number. number < 2 ^ 32 };

    fn fits(&self) -> bool {
        let _number = *self;
        true
    }

    #[tactic(auto, using(crate::proofs::RoomLaws::sizes))]
    fn behind(&self, left: usize) -> Option<usize> {
        left.checked_sub(4)
    }

    fn write(&self, out: &mut Vec<u8>) -> Result<(), AllocError> {
        write_u32(out, *self)
    }
}

impl Part for bool {
    ghost spelled = { flag_bytes };

    ghost Fits = { λ _. Unit {0} };

    ghost InRange = { λ _. Unit {0} };

    fn fits(&self) -> bool {
        true
    }

    #[tactic(auto, using(crate::proofs::RoomLaws::sizes))]
    fn behind(&self, left: usize) -> Option<usize> {
        left.checked_sub(1)
    }

    fn write(&self, out: &mut Vec<u8>) -> Result<(), AllocError> {
        Ok(out.push(u8::from(*self))?)
    }
}
