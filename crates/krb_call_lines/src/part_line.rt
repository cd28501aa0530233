//! The line that is being read.

ghost use Rattle.std.specs.Prelude.{◌≡◌, ◌↔◌, ◌++◌, ℕ, IsTrue, List, Ok, None, IfOk, IfSome, OnOk, []};
ghost use Rattle.krb_call_lines.specs.CallLine.{SpellsCall, IsBadLine};
ghost use Rattle.krb_call_lines.specs.Inner.Held.{Holds};

use crate::call_line::{LINE_LIMIT, SpelledCall, call_of};
use std::alloc::{AllocError, Global};

/// The bytes that came since the last line end. Of a line that is too long nothing is kept.
#[derive(Drop)]
pub struct PartLine {
    bytes: Vec<u8>,
    too_long: bool,
}

impl PartLine {
    /// The beginning of a line.
    pub fn new(alloc: Global) -> PartLine
        ensures { Holds result [] }
    {
        PartLine {
            bytes: Vec::new(alloc),
            too_long: false,
        }
    }

    /// Adds bytes.
    pub fn extend(&mut self, more: &[u8]) -> Result<(), AllocError>
        ensures { OnOk result ((line : List ℕ) → Holds self.old line → Holds self.new (line ++ more.now)) }
    {
        if self.too_long {
            return Ok(());
        }
        if LINE_LIMIT.saturating_sub(self.bytes.len()) < more.len() {
            self.bytes.clear();
            self.too_long = true;
            return Ok(());
        }
        self.bytes.extend_from_slice(more)
    }

    /// Goes on to the beginning of the next line.
    pub fn clear(&mut self)
        ensures { Holds self.new [] }
    {
        self.bytes.clear();
        self.too_long = false;
    }

    /// Answers whether no byte came.
    pub fn is_empty(&self) -> bool
        ensures { (line : List ℕ) → Holds self.now line → IsTrue result ↔ (line ≡ []) }
    {
        !self.too_long && self.bytes.is_empty()
    }

    /// Reads the line, as `call_of` does.
    pub fn call(&self, alloc: Global) -> Result<Option<SpelledCall>, AllocError>
        ensures found { (line : List ℕ) → Holds self.now line
            → IfOk result (λ spelled. IfSome spelled (λ call. SpellsCall line call.bytes.items call.now call.confounder)) }
        ensures bad { result ≡ Ok None → (line : List ℕ) → Holds self.now line → IsBadLine line }
    {
        if self.too_long {
            return Ok(None);
        }
        call_of(alloc, &self.bytes)
    }
}
