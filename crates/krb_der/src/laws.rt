//! Laws of the definitions, for all kinds at once. Each function has an empty body: its contract is
//! the law.

ghost use Rattle.std.specs.Prelude.{◌≡◌, ℕ, ◌≤◌, ◌++◌, ◌∷◌, ◌⊎◌, ◌↔◌, List, [], length, true};
ghost use Rattle.krb_der.specs.declared.cursor.TheConstants.{MESSAGE_LIMIT};
ghost use Rattle.krb_der.specs.declared.fault.Fault.{Fault};
ghost use Rattle.krb_der.specs.Kind.{Kind, Fields, each, ValueOf, FieldsOf};
ghost use Rattle.krb_der.specs.Content.{Elementary};
ghost use Rattle.krb_der.specs.Place.{Place, end_of};
ghost use Rattle.krb_der.specs.Spells.{Spells, SpellsFields, StandsAt, IsMessage, limit};
ghost use Rattle.krb_der.specs.Size.{size_of, NumbersFit};
ghost use Rattle.krb_der.specs.Writing.{Writes};
ghost use Rattle.krb_der.specs.Fault.{IsFault, IsFaulty, IsElementFault, IsHeadFault};
ghost use Rattle.krb_der.specs.Flags.{HasBit};
ghost use Rattle.krb_der.specs.Clear.{is_clear, are_clear};
ghost use Rattle.krb_der.specs.Numbers.{numbers_in, HasHigh, SpellsNegative};
ghost use Rattle.krb_der.specs.Parts.{Parts, PlacesOf, Stand};
ghost use Rattle.krb_der.specs.PartsFault.{PartsFault};
ghost use Rattle.krb_der.specs.Computed.Read.{element_at, fields_at, message_of};
ghost use Rattle.krb_der.specs.Computed.Parts.{parts_at};

/// A spelling has only one value.
pub fn one_value()
    ensures { (k : Kind) → is_clear k ≡ true → (v w : ValueOf k) (bytes : List ℕ)
        → Spells k v bytes → Spells k w bytes → v ≡ w }
{}

/// A value has at most one spelling without a negative sequence number, which is the one that is
/// written, and at most one with each of its sequence numbers negative. A value with at most one
/// sequence number has no other spelling. It has the negative one only if that number is above
/// 2,147,483,647.
pub fn one_spelling()
    ensures written { (k : Kind) (v : ValueOf k) (a b : List ℕ) → Writes k v a → Writes k v b → a ≡ b }
    ensures negative { (k : Kind) (v : ValueOf k) (a b : List ℕ)
        → SpellsNegative k v a → SpellsNegative k v b → a ≡ b }
    ensures either { (k : Kind) → numbers_in k ≤ 1 → (v : ValueOf k) (bytes : List ℕ)
        → Spells k v bytes → Writes k v bytes ⊎ SpellsNegative k v bytes }
    ensures spells { (k : Kind) (v : ValueOf k) (bytes : List ℕ) → SpellsNegative k v bytes → Spells k v bytes }
    ensures high { (k : Kind) → numbers_in k ≡ 0 → (v : ValueOf k) → HasHigh k v → ⊥ }
{}

/// What is written for a value is one of its spellings, and has the value's size. It exists for
/// each value whose numbers are in their ranges and whose size is within the limit of a message.
pub fn written()
    ensures exists { (k : Kind) (v : ValueOf k) → NumbersFit k v → size_of k v ≤ limit
        → (bytes : List ℕ) × Writes k v bytes }
    ensures one { (k : Kind) (v : ValueOf k) (a b : List ℕ) → Writes k v a → Writes k v b → a ≡ b }
    ensures spells { (k : Kind) (v : ValueOf k) (bytes : List ℕ) → Writes k v bytes → Spells k v bytes }
    ensures size { (k : Kind) (v : ValueOf k) (bytes : List ℕ) → Writes k v bytes → length bytes ≡ size_of k v }
{}

/// The numbers of a value that is spelled are in their ranges.
pub fn in_range()
    ensures { (k : Kind) (v : ValueOf k) (bytes : List ℕ) → Spells k v bytes → NumbersFit k v }
{}

/// No spelling is a proper prefix of another.
pub fn no_prefix()
    ensures { (k : Kind) → is_clear k ≡ true → (v w : ValueOf k) (a b x y : List ℕ)
        → Spells k v a → Spells k w b → a ++ x ≡ b ++ y → (a ≡ b) × (v ≡ w) }
{}

/// Whether bytes are a message of a kind is decidable.
pub fn decided()
    ensures { (k : Kind) → is_clear k ≡ true → (bytes : List ℕ)
        → ((v : ValueOf k) × IsMessage k v bytes) ⊎ ((v : ValueOf k) → IsMessage k v bytes → ⊥) }
{}

/// Bytes that aren't a message of a kind have a fault by the rules.
#[tactic(auto, using(crate::proofs::Messages::has_fault))]
pub fn faulty()
    ensures { (k : Kind) → is_clear k ≡ true → (bytes : List ℕ)
        → ((v : ValueOf k) → IsMessage k v bytes → ⊥) → (fault : Fault) × IsFault k bytes fault }
{}

/// A bit of flags is set or it isn't.
pub fn bit_decided()
    ensures { (flags n : ℕ) → HasBit flags n ⊎ (HasBit flags n → ⊥) }
{}

/// The offset of a fault is that of a byte of the message, or its end.
pub fn within()
    ensures { (k : Kind) (bytes : List ℕ) (fault : Fault) → IsFault k bytes fault → fault.at ≤ length bytes }
{}

/// The same holds for a fault of an element, of its head, or of fields that are required at a
/// place: its offset is within the enclosing element.
pub fn within_a_place()
    ensures element { (k : Kind) (here : Place) (fault : Fault)
        → IsElementFault Elementary k here fault → fault.at ≤ end_of here }
    ensures head { (tag : ℕ) (here : Place) (fault : Fault)
        → IsHeadFault Elementary tag here fault → fault.at ≤ end_of here }
    ensures fields { (fs : Fields) (here : Place) (fault : Fault)
        → IsFaulty Elementary fs here fault → fault.at ≤ end_of here }
{}

/// Reading an element, as `specs::Computed` has it, gives a value and a place exactly if that
/// value's spelling comes next and the place is after it.
pub fn element_read()
    ensures { (k : Kind) → is_clear k ≡ true → (v : ValueOf k) (here after : Place)
        → (element_at k here ≡ Ok (v, after)) ↔ StandsAt Elementary k v here after }
{}

/// Otherwise it gives a fault of that element by the rules.
#[tactic(auto, using(crate::proofs::Reading::element_at_fault))]
pub fn element_refused()
    ensures { (k : Kind) (here : Place) (fault : Fault)
        → element_at k here ≡ Err fault → IsElementFault Elementary k here fault }
{}

/// Reading fields, as `specs::Computed` has it, gives their values exactly if everything that is
/// left spells them.
#[tactic(auto, using(crate::proofs::Reading::fields_read_exactly))]
pub fn fields_read()
    ensures { (fs : Fields) → are_clear fs ≡ true → (v : FieldsOf fs) (here : Place)
        → (fields_at fs here ≡ Ok v) ↔ SpellsFields Elementary fs v here.rest }
{}

/// Otherwise it gives a fault of what is left by the rules.
#[tactic(auto, using(crate::proofs::Reading::fields_at_fault))]
pub fn fields_refused()
    ensures { (fs : Fields) (here : Place) (fault : Fault)
        → fields_at fs here ≡ Err fault → IsFaulty Elementary fs here fault }
{}

/// Reading a message, as `specs::Computed` has it, gives a value exactly if the bytes are a message
/// with that value.
pub fn message_read()
    ensures { (k : Kind) → is_clear k ≡ true → (v : ValueOf k) (bytes : List ℕ)
        → (message_of k bytes ≡ Ok v) ↔ IsMessage k v bytes }
{}

/// Otherwise it gives a fault of the bytes by the rules.
#[tactic(auto, using(crate::proofs::Messages::message_fault))]
pub fn message_refused()
    ensures { (k : Kind) (bytes : List ℕ) (fault : Fault)
        → message_of k bytes ≡ Err fault → IsFault k bytes fault }
{}

/// What is left as elements of one kind is either nothing, or one element and others.
#[tactic(auto, using(crate::proofs::Lists::list_next))]
pub fn list_next()
    ensures { (k : Kind) (here : Place) (vs : List (ValueOf k)) → fields_at (each k) here ≡ Ok vs
        → ((here.rest ≡ []) × (vs ≡ [])) ⊎ ((v : ValueOf k) × (after : Place) × (ws : List (ValueOf k))
        × (vs ≡ v ∷ ws) × (element_at k here ≡ Ok (v, after)) × (fields_at (each k) after ≡ Ok ws)) }
{}

/// Finding the parts of a message in place, as `specs::Computed` has it, gives places exactly if the parts
/// stand there.
#[tactic(auto, using(crate::proofs::PartsLaws::found_exactly))]
pub fn parts_found()
    ensures { (ps : Parts) (v : PlacesOf ps) (here : Place) → (parts_at ps here ≡ Ok v) ↔ Stand ps v here }
{}

/// Otherwise it gives a fault by the rules.
#[tactic(auto, using(crate::proofs::PartsLaws::refused_rightly))]
pub fn parts_refused()
    ensures { (ps : Parts) (here : Place) (fault : Fault)
        → parts_at ps here ≡ Err fault → PartsFault ps here fault }
{}

/// `MESSAGE_LIMIT` is the limit of the definitions.
pub fn the_limit_is_one()
    ensures { MESSAGE_LIMIT ≡ limit }
{}
