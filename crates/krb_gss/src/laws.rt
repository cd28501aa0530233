//! Laws of the definitions. Each function has an empty body: its contract is the law.

ghost use Rattle.std.specs.Prelude.{◌≡◌, List, ℕ};
ghost use Rattle.krb_gss.specs.Answer.{WritesVerdict};
ghost use Rattle.krb_gss.specs.Checksum.{Content, IsChecksum};
ghost use Rattle.krb_gss.specs.Listing.{IsListing};
ghost use Rattle.krb_gss.specs.Negotiation.{IsAlone};
ghost use Rattle.krb_gss.specs.Said.{Says};
ghost use Rattle.krb_gss.specs.Token.{IsToken};

use crate::{Mechanism, Verdict, Wrapping};

/// Bytes are the checksum of at most one content, and a content has at most one checksum.
pub fn one_checksum()
    ensures value { (c d : Content) (bytes : List ℕ) → IsChecksum c bytes → IsChecksum d bytes → c ≡ d }
    ensures bytes { (c : Content) (a b : List ℕ) → IsChecksum c a → IsChecksum c b → a ≡ b }
{}

/// What a negotiation's token holds is what its mechToken holds alone, whatever else is in the negotiation. So nothing that is changed
/// in its list of mechanisms makes another request of it, or lets a client in under another mechanism than Kerberos.
pub fn list_decides_nothing()
    ensures { (first mechanism : Mechanism) (request bytes : List ℕ)
        → IsToken (Wrapping.Negotiated first) mechanism request bytes → IsAlone mechanism request bytes }
{}

/// A token has at most one list that names Kerberos after another mechanism, and one first name of Kerberos in it. So a mechListMIC is
/// over the very bytes that the client's first token holds.
pub fn one_listing()
    ensures { (first second : Mechanism) (one other bytes : List ℕ)
        → IsListing first one bytes → IsListing second other bytes → (first ≡ second) × (one ≡ other) }
{}

/// What is written for a verdict says that verdict. So `read_verdict` reads what `wrap_verdict` writes.
pub fn verdict_said()
    ensures { (verdict : Verdict) (bytes : List ℕ) → WritesVerdict verdict bytes → Says verdict bytes }
{}
