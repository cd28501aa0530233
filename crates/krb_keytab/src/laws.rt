//! Laws over the definitions, for proofs to cite. Each function has an empty body: its contract is
//! the law.

ghost use Rattle.std.specs.Prelude.{◌≡◌, ◌≢◌, ◌≤◌, ◌++◌, ℕ, ℤ, IfSome, List, Option, Some, Result, length};
ghost use Rattle.std.specs.Io.KnownBytes.{Consumes};
ghost use Rattle.std.specs.List.{flat_map};
ghost use Rattle.krb_file.specs.Field.{IsBytes};
ghost use Rattle.krb_name.specs.declared.principal.Principal.{Principal};
ghost use Rattle.krb_keytab.specs.Entry.{KeytabEntry};
ghost use Rattle.krb_keytab.specs.Edit.{IsMadeOf};
ghost use Rattle.krb_keytab.specs.Fault.{offset_of};
ghost use Rattle.krb_keytab.specs.Format.{KeytabRecord, IsAnswerOf, IsFaultOf, IsKeytab, entries_of};
ghost use Rattle.krb_keytab.specs.Items.{StandsTo};
ghost use Rattle.krb_keytab.specs.Pick.{Choice, IsChoice};
ghost use Rattle.krb_keytab.specs.declared.fault.KeytabFault.{KeytabFault};
ghost use Rattle.krb_keytab.specs.declared.stage.Stage.{Stage};
ghost use Rattle.krb_keytab.specs.declared.stage.Stage.TheVariants.{End, Failed, Records};

/// States that bytes either are a keytab, of one list of entries only, or have a fault, and only
/// one.
#[tactic(auto, using(crate::proofs::AnswerLaws::some_answer, crate::proofs::OneAnswer::same_answers))]
pub fn each_file_has_one_answer()
    ensures some { (bytes : List ℕ) → IsBytes bytes
        → (answer : Result (List KeytabEntry) KeytabFault) × IsAnswerOf bytes answer }
    ensures one { (bytes : List ℕ) (answer other : Result (List KeytabEntry) KeytabFault)
        → IsAnswerOf bytes answer → IsAnswerOf bytes other → answer ≡ other }
{}

/// States that there is a choice for each name, encryption type and version number: an entry, or
/// one of the three reasons why there is none.
#[tactic(auto, using(crate::proofs::SomeChoice::some_choice))]
pub fn a_choice_exists()
    ensures { (entries : List KeytabEntry) (name : Principal) (etype : ℤ) (kvno : Option ℕ)
        → (choice : Choice) × IsChoice entries name etype kvno choice }
{}

/// States that there is only one choice.
#[tactic(auto, using(crate::proofs::ChoiceLaws::one_choice))]
pub fn each_choice_is_one()
    ensures { (entries : List KeytabEntry) (name : Principal) (etype : ℤ) (kvno : Option ℕ)
        (one other : Choice) → IsChoice entries name etype kvno one
        → IsChoice entries name etype kvno other → one ≡ other }
{}

/// States that a keytab consists of one list of records and one end only. So there is one first
/// hole that is long enough, and one place where the records end.
#[tactic(auto, using(crate::proofs::OneSplit::same_division))]
pub fn each_keytab_is_divided_once()
    ensures { (bytes : List ℕ) (records others : List KeytabRecord) (end other_end : List ℕ)
        → IsMadeOf bytes records end → IsMadeOf bytes others other_end
        → (records ≡ others) × (end ≡ other_end) }
{}

/// States that the entries of a keytab are those of its records, in their order. So an added entry
/// comes after those of the records before its own.
#[tactic(auto, using(crate::proofs::MadeLaws::made_keytab))]
pub fn records_hold_the_entries()
    ensures { (bytes : List ℕ) (records : List KeytabRecord) (end : List ℕ)
        → IsMadeOf bytes records end → IsKeytab bytes (flat_map entries_of records) }
{}

/// States that the offset of a fault is that of one of the bytes, or their end.
#[tactic(auto, using(crate::proofs::OneAnswer::fault_within))]
pub fn each_fault_lies_within()
    ensures { (bytes : List ℕ) (fault : KeytabFault) → IsFaultOf bytes fault
        → IfSome (offset_of fault) (λ at. at ≤ length bytes) }
{}

/// States that the last answer of a reader is right for all the bytes that its source had. If it is
/// the end, the bytes are a keytab of the entries that it returned. If it is a fault of the
/// content, the bytes have this fault.
#[tactic(auto, using(crate::proofs::ToldLaws::end_told, crate::proofs::ToldLaws::fault_told))]
pub fn a_reader_tells_the_file()
    ensures end { (whole bytes : List ℕ) (left : Option (List ℕ)) (held : ℕ) (entries : List KeytabEntry)
        → Consumes (Some whole) left bytes → StandsTo left held End bytes entries → IsKeytab whole entries }
    ensures fault { (whole bytes : List ℕ) (left : Option (List ℕ)) (held : ℕ) (entries : List KeytabEntry)
        (fault : KeytabFault) → fault ≢ KeytabFault.Read → fault ≢ KeytabFault.OutOfMemory
        → Consumes (Some whole) left bytes → StandsTo left held (Failed fault) bytes entries
        → IsFaultOf whole fault }
{}

/// States that the entries that a reader returns are the first ones of the keytab, wherever the
/// reader is. None is skipped.
pub fn a_reader_gives_the_first_entries()
    ensures { (whole bytes : List ℕ) (left : Option (List ℕ)) (held : ℕ) (stage : Stage)
        (all entries : List KeytabEntry) → Consumes (Some whole) left bytes
        → StandsTo left held stage bytes entries → IsKeytab whole all
        → (others : List KeytabEntry) × (all ≡ entries ++ others) }
{}

/// States that if two readers of one file are after an entry, and have read the same number of
/// entries, then they read the same ones, and their sources gave the same bytes: those up to the
/// end of this entry's record.
pub fn each_entry_ends_at_one_place()
    ensures { (whole bytes others : List ℕ) (left right : Option (List ℕ)) (held peak : ℕ)
        (entries more : List KeytabEntry)
        → Consumes (Some whole) left bytes → StandsTo left held Records bytes entries
        → Consumes (Some whole) right others → StandsTo right peak Records others more
        → length entries ≡ length more → (bytes ≡ others) × (entries ≡ more) }
{}

/// States that two readers of one file return the same entries before a fault of the content.
pub fn each_reader_gives_the_same_entries()
    ensures { (whole bytes others : List ℕ) (left right : Option (List ℕ)) (held peak : ℕ)
        (entries more : List KeytabEntry) (fault other : KeytabFault)
        → fault ≢ KeytabFault.Read → fault ≢ KeytabFault.OutOfMemory
        → other ≢ KeytabFault.Read → other ≢ KeytabFault.OutOfMemory
        → Consumes (Some whole) left bytes → StandsTo left held (Failed fault) bytes entries
        → Consumes (Some whole) right others → StandsTo right peak (Failed other) others more
        → entries ≡ more }
{}
