//! Laws over the definitions, for proofs to cite. Each function has an empty body: its contract is
//! the law.

ghost use Rattle.std.specs.Prelude.{◌≡◌, ℕ, List, [], ◌∷◌, Result};
ghost use Rattle.krb_name.specs.Name.{SameName, name_hash};
ghost use Rattle.krb_name.specs.Text.{text_of};
ghost use Rattle.krb_name.specs.Reading.{AreComponents, IsReadAs, SameAnswer};
ghost use Rattle.krb_file.specs.Field.{IsBytes};

use crate::principal::Principal;
use crate::text_fault::TextFault;

/// States that a text is read in one way only.
pub fn a_text_has_one_answer()
    ensures { (text : List ℕ) (one other : Result Principal TextFault)
        → IsReadAs text one → IsReadAs text other → SameAnswer one other }
{}

/// States that names with components that have the same text are the same, and that a name without
/// components has the text of one with a single empty component.
pub fn a_text_has_one_name()
    ensures name { (one other : Principal)
        → AreComponents one.components → IsBytes one.realm
        → AreComponents other.components → IsBytes other.realm
        → text_of one ≡ text_of other → SameName one other }
    ensures empty { (principal : Principal)
        → text_of (record principal { components = [] })
        ≡ text_of (record principal { components = [] ∷ [] }) }
{}

/// States that the same names have the same hash.
pub fn the_same_names_have_one_hash()
    ensures { (one other : Principal) → SameName one other → name_hash one ≡ name_hash other }
{}
