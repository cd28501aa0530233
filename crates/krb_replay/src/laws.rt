//! Laws over the definitions, for proofs to cite. Each function has an empty body: its contract is
//! the law.

ghost use Rattle.std.specs.Prelude.{◌≡◌, ℕ, List, Contains};
ghost use Rattle.krb_replay.specs.Bytes.{IsBytesOf};
ghost use Rattle.krb_replay.specs.Memory.{IsSizeOf};
ghost use Rattle.krb_replay.specs.Stamp.{Stamp};

/// States that a set has only one size, whichever list describes it.
pub fn a_set_has_one_size()
    ensures { (stamps : List Stamp) (one other : ℕ) → IsSizeOf (Contains stamps) one → IsSizeOf (Contains stamps) other
        → one ≡ other }
{}

/// States that two stamps have the same bytes exactly if they are equal.
pub fn bytes_are_the_stamps()
    ensures one { (stamp : Stamp) (one other : List ℕ) → IsBytesOf stamp one → IsBytesOf stamp other → one ≡ other }
    ensures same { (one other : Stamp) (bytes : List ℕ) → IsBytesOf one bytes → IsBytesOf other bytes → one ≡ other }
{}
