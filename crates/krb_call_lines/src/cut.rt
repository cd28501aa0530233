//! Where bytes are cut.

ghost use Rattle.std.specs.Prelude.{◌≡◌, ◌≢◌, ◌++◌, ◌∷◌, All, MatchOption};

use memchr::memchr;

/// Returns what stands before the first such byte, and what stands after it.
pub fn cut_at(mark: u8, bytes: &[u8]) -> Option<(&[u8], &[u8])>
    ensures { MatchOption result (All (λ byte. byte ≢ mark) bytes.now)
        (λ parts. (bytes.now ≡ parts.0.now ++ mark ∷ parts.1.now) × All (λ byte. byte ≢ mark) parts.0.now) }
{
    match memchr(mark, bytes) {
        Some(at) => Some((&bytes[..at], &bytes[at + 1..])),
        None => None,
    }
}
