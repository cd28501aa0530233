//! The search among what is in order.

ghost use Rattle.std.specs.Prelude.{◌-◌, ◌≤◌, ◌<◌, ℕ, false, true};

// Among more places than these, the places near the ends are looked at first.
const MANY: usize = 512;

// How many places are near an end.
const NEAR: usize = 16;

/// Returns how many of the places before `count` pass a test. If one passes, so does each before it.
pub(crate) fn search<P: Fn(usize) -> bool>(count: usize, passes: P) -> usize
    requires { (at : ℕ) → at < count → P.pre passes at }
    ensures within { result ≤ count }
    ensures last { 0 < result → P.post passes (result - 1) true }
    ensures next { result < count → P.post passes result false }
{
    let Part { mut low, mut high } = part_of(count, &passes);
    while low < high {
        let middle = low + (high - low) / 2;
        if passes(middle) {
            low = middle + 1;
        } else {
            high = middle;
        }
    }
    low
}

// The places from `low` to `high`: all before `low` pass, and none from `high` on.
#[derive(Drop)]
struct Part {
    low: usize,
    high: usize,
}

// Returns the part in which a search ends. Most items come in order or nearly so, and go in order. So
// most searches end after the last place, and most others among many near the last place or near the
// first. What is there was read a moment ago, and what is in the middle wasn't.
fn part_of<P: Fn(usize) -> bool>(count: usize, passes: &P) -> Part
    requires { (at : ℕ) → at < count → P.pre passes.now at }
    ensures order { result.low ≤ result.high }
    ensures within { result.high ≤ count }
    ensures last { 0 < result.low → P.post passes.now (result.low - 1) true }
    ensures next { result.high < count → P.post passes.now result.high false }
{
    if count == 0 || passes(count - 1) {
        return Part {
            low: count,
            high: count,
        };
    }
    if count <= MANY {
        return Part {
            low: 0,
            high: count,
        };
    }
    if passes(count - NEAR - 1) {
        return Part {
            low: count - NEAR,
            high: count,
        };
    }
    if passes(NEAR) {
        return Part {
            low: NEAR + 1,
            high: count - NEAR - 1,
        };
    }
    Part { low: 0, high: NEAR }
}
