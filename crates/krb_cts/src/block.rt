//! Blocks of 16 bytes.

ghost use Rattle.std.specs.Prelude.{◌≡◌, ◌+◌, ◌≤◌, ◌++◌, ◌-◌, length, take, drop};
ghost use Rattle.krb_cts.specs.Stealing.{xor};

use std::simd::u8x16;

pub(crate) const BLOCK_LEN: usize = 16;

pub(crate) type Block = [u8; BLOCK_LEN];

// The XOR of two blocks.
#[inline(always)]
pub(crate) fn xor(one: &Block, other: &Block) -> Block
    ensures { result ≡ xor one.now other.now }
{
    (u8x16::from_array(*one) ^ u8x16::from_array(*other)).to_array()
}

// The block that begins at `at`.
#[inline(always)]
pub(crate) fn block_at(text: &[u8], at: usize) -> Block
    requires { at + 16 ≤ length text.now }
    ensures { result ≡ take 16 (drop at text.now) }
{
    let mut block = [0; BLOCK_LEN];
    block.copy_from_slice(&text[at..at + BLOCK_LEN]);
    block
}

// Puts a block at the offset `at`.
#[inline(always)]
pub(crate) fn put_block(text: &mut [u8], at: usize, block: &Block)
    requires { at + 16 ≤ length text.old }
    ensures { text.new ≡ take at text.old ++ block.now ++ drop (at + 16) text.old }
{
    text[at..at + BLOCK_LEN].copy_from_slice(block);
}
