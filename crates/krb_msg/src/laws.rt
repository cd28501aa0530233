//! Laws of the messages. Each function has a body without effect: its contract is the law.

ghost use Rattle.std.specs.Prelude.{◌≡◌, ◌+◌, ◌≤◌, ◌++◌, ◌⊎◌, List, ℕ, length, None, Some};
ghost use Rattle.krb_der.specs.declared.fault.Fault.{Fault};
ghost use Rattle.krb_der.specs.Kind.{Kind, ValueOf};
ghost use Rattle.krb_der.specs.Fault.{IsFault};
ghost use Rattle.krb_der.specs.Spells.{Spells, IsMessage};
ghost use Rattle.krb_der.specs.Size.{size_of};
ghost use Rattle.krb_der.specs.Writing.{Writes};
ghost use Rattle.krb_der.specs.Numbers.{SpellsNegative};
ghost use Rattle.krb_msg.specs.Fields.{RequestFields, ap_req_value, bytes_of, encrypted_fields, reply_enc_part, reply_fields};
ghost use Rattle.krb_msg.specs.Numbers.{HasHighNumber};
ghost use Rattle.krb_msg.specs.Module.{IsMessageKind, ap_req, ap_rep, enc_ap_rep_part, encryption_key, ticket};
ghost use Rattle.krb_msg.specs.Spelled.{WritesOver};

/// A spelling of a message has only one value.
pub fn one_value()
    ensures { (k : Kind) → IsMessageKind k → (v w : ValueOf k) (bytes : List ℕ)
        → Spells k v bytes → Spells k w bytes → v ≡ w }
{
    krb_der::laws::one_value()
}

/// A value has at most one spelling without a negative sequence number: the one that `encode`
/// writes. It has at most one spelling with a negative sequence number, and that only if its
/// sequence number is above 2,147,483,647. It has no other spelling.
pub fn one_spelling()
    ensures written { (k : Kind) → IsMessageKind k → (v : ValueOf k) (a b : List ℕ)
        → Writes k v a → Writes k v b → a ≡ b }
    ensures negative { (k : Kind) → IsMessageKind k → (v : ValueOf k) (a b : List ℕ)
        → SpellsNegative k v a → SpellsNegative k v b → a ≡ b }
    ensures high { (k : Kind) → IsMessageKind k → (v : ValueOf k) (bytes : List ℕ)
        → SpellsNegative k v bytes → HasHighNumber k v }
    ensures either { (k : Kind) → IsMessageKind k → (v : ValueOf k) (bytes : List ℕ)
        → Spells k v bytes → Writes k v bytes ⊎ SpellsNegative k v bytes }
{
    krb_der::laws::one_spelling()
}

/// No spelling is a proper prefix of another, of whichever types: if bytes begin with two
/// spellings, these are the same.
pub fn no_prefix()
    ensures spelling { (k : Kind) → IsMessageKind k → (v w : ValueOf k) (a b x y : List ℕ)
        → Spells k v a → Spells k w b → a ++ x ≡ b ++ y → (a ≡ b) × (v ≡ w) }
    ensures kind { (k l : Kind) → IsMessageKind k → IsMessageKind l → (v : ValueOf k) (w : ValueOf l)
        (a b x y : List ℕ) → Spells k v a → Spells l w b → a ++ x ≡ b ++ y → k ≡ l }
{
    krb_der::laws::no_prefix()
}

/// Bytes are a message of at most one type. So no bytes are both a request and a reply.
pub fn one_type()
    ensures kind { (k l : Kind) → IsMessageKind k → IsMessageKind l → (v : ValueOf k) (w : ValueOf l) (bytes : List ℕ)
        → Spells k v bytes → Spells l w bytes → k ≡ l }
    ensures request_or_reply { (v : ValueOf ap_req) (w : ValueOf ap_rep) (bytes : List ℕ)
        → Spells ap_req v bytes → Spells ap_rep w bytes → ⊥ }
{}

/// Whether bytes are a message of a type is decidable.
pub fn decided()
    ensures { (k : Kind) → IsMessageKind k → (bytes : List ℕ)
        → ((v : ValueOf k) × IsMessage k v bytes) ⊎ ((v : ValueOf k) → IsMessage k v bytes → ⊥) }
{
    krb_der::laws::decided()
}

/// Bytes that aren't a message of a type have a fault by the rules.
#[tactic(auto, using(crate::proofs::Messages::clear))]
pub fn faulty()
    ensures { (k : Kind) → IsMessageKind k → (bytes : List ℕ)
        → ((v : ValueOf k) → IsMessage k v bytes → ⊥) → (fault : Fault) × IsFault k bytes fault }
{
    krb_der::laws::faulty()
}

/// The greatest length of replies: without a key the sealed part of a reply has at most 41 bytes,
/// and such a part is never too long.
pub fn reply_size()
    ensures without_key { (v : ValueOf enc_ap_rep_part) → (reply_fields v).subkey ≡ None → size_of enc_ap_rep_part v ≤ 41 }
    ensures with_key { (v : ValueOf enc_ap_rep_part) (key : ValueOf encryption_key) → (reply_fields v).subkey ≡ Some key
        → size_of enc_ap_rep_part v ≤ 82 + length (bytes_of key) }
    ensures reply { (v : ValueOf ap_rep) → size_of ap_rep v ≤ 64 + length (encrypted_fields (reply_enc_part v)).cipher }
{}

/// A request over a ticket has the ticket's bytes in it as they are: they are the whole content of
/// its field \[3\].
///
/// Source: RFC 4120, section 5.5.1.
pub fn ticket_as_it_is()
    ensures content { (v : RequestFields) (bytes request : List ℕ) → IsMessage ticket v.ticket bytes
        → Writes ap_req (ap_req_value v) request → WritesOver v.options bytes v.authenticator request }
    ensures inside { (v : RequestFields) (bytes request : List ℕ) → IsMessage ticket v.ticket bytes
        → Writes ap_req (ap_req_value v) request
        → (before : List ℕ) × (after : List ℕ) × (request ≡ before ++ bytes ++ after) }
{
    krb_der::laws::one_spelling()
}
