//! Laws over the definitions, for proofs to cite. Each function has an empty body: its contract is
//! the law.

ghost use Rattle.std.specs.Prelude.{◌≡◌, ◌≢◌, ◌≤◌, ◌++◌, ℕ, ℤ, All, IfSome, List, None, Option, Some, Result, length};
ghost use Rattle.krb_file.specs.Field.{IsBytes};
ghost use Rattle.krb_ccache.specs.Types.{HeaderField, CacheFault, Layout, Version4};
ghost use Rattle.krb_ccache.specs.Configuration.{HoldsOffset};
ghost use Rattle.krb_file.specs.File.{file_limit, IsGiven};
ghost use Rattle.krb_ccache.specs.Format.{version_of, written, IsCache, IsAnswerOf, IsFaultOf};
ghost use Rattle.krb_ccache.specs.Fault.{offset_of};
ghost use Rattle.krb_ccache.specs.Offset.{clock_offset};
ghost use Rattle.krb_ccache.specs.Reader.{HasTaken, GoesTo, IsFirstOf};
ghost use Rattle.krb_ccache.specs.Value.{Cache, Fits};

/// States that bytes either are a cache, of one value only, or have a fault, and only one.
#[tactic(auto, using(crate::proofs::AnswerLaws::some_answer, crate::proofs::AnswerLaws::one_answer))]
pub fn each_file_has_one_answer()
    ensures some { (bytes : List ℕ) → IsBytes bytes
        → (answer : Result Cache CacheFault) × IsAnswerOf bytes answer }
    ensures one { (bytes : List ℕ) (answer other : Result Cache CacheFault)
        → IsAnswerOf bytes answer → IsAnswerOf bytes other → answer ≡ other }
{}

/// States that bytes are a cache of one value only; that what is written of a cache, within the
/// limit, is a cache of that value; that a cache of version 0x0504 has the bytes that are written
/// of its value; and that two caches with the same written bytes are the same.
#[tactic(auto, using(crate::proofs::LayoutLaws::written_cache, crate::proofs::AnswerLaws::same_written))]
pub fn each_value_has_one_spelling()
    ensures value { (bytes : List ℕ) (one other : Cache)
        → IsCache bytes one → IsCache bytes other → one ≡ other }
    ensures written { (cache : Cache) → Fits cache → length (written cache) ≤ file_limit
        → IsCache (written cache) cache }
    ensures again { (bytes others : List ℕ) (cache : Cache) → IsCache bytes cache
        → bytes ≡ version_of Version4 ++ others → bytes ≡ written cache }
    ensures spelling { (one other : Cache) → Fits one → Fits other
        → written one ≡ written other → one ≡ other }
{}

/// States that a header has at most one clock offset.
pub fn a_header_holds_one_offset()
    ensures seconds { (header : List HeaderField) (seconds microseconds others more : ℤ)
        → HoldsOffset header seconds microseconds → HoldsOffset header others more
        → seconds ≡ others }
    ensures microseconds { (header : List HeaderField) (seconds microseconds others more : ℤ)
        → HoldsOffset header seconds microseconds → HoldsOffset header others more
        → microseconds ≡ more }
{}

/// States that the clock offset of a header is the computed one, and that none is computed for a
/// header without a field of tag 1.
#[tactic(auto, using(crate::proofs::ComputedOffset::none_computed))]
pub fn the_offset_is_computed()
    ensures held { (header : List HeaderField) (seconds microseconds : ℤ)
        → HoldsOffset header seconds microseconds
        → clock_offset header ≡ Some (seconds, microseconds) }
    ensures none { (header : List HeaderField) → All (λ field. field.tag ≢ 1) header
        → clock_offset header ≡ None }
{}

/// States that the offset of a fault is that of one of the bytes, or their end.
#[tactic(auto, using(crate::proofs::FileLaws::fault_within))]
pub fn each_fault_lies_within()
    ensures { (bytes : List ℕ) (fault : CacheFault) → IsFaultOf bytes fault
        → IfSome (offset_of fault) (λ at. at ≤ length bytes) }
{}

/// States that the answer for the bytes that a source gave, up to its end or to one byte past the
/// limit, is the answer for all that it had. So a reader's last answer is that of `CCache::parse`,
/// and at the end its credentials are those of `CCache::parse`.
#[tactic(auto, using(crate::proofs::SourceLaws::answer_of_whole))]
pub fn a_source_tells_its_file()
    ensures { (whole bytes : List ℕ) (left : Option (List ℕ)) (answer : Result Cache CacheFault)
        → IsGiven (Some whole) left bytes → IsAnswerOf bytes answer → IsAnswerOf whole answer }
{}

/// States that the credentials that a reader returns, up to the first place at which there is none
/// that ends within the limit, are one list for each file.
pub fn a_reader_stops_in_one_place()
    ensures { (bytes : List ℕ) (one other : Cache)
        → GoesTo bytes one → GoesTo bytes other → one ≡ other }
{}

/// States that the credentials that a reader has read, returned or passed over, are the first ones
/// of the cache, wherever the reader is, if what its source gives is known and is a cache.
pub fn a_reader_gives_the_first_credentials()
    ensures { (whole : List ℕ) (left : Option (List ℕ)) (layout : Layout) (at : ℕ) (cache all : Cache)
        → HasTaken layout (Some whole) left at cache → IsCache whole all → IsFirstOf cache all }
{}

/// States that if two readers of one file have read the same number of credentials, then they read
/// the same ones, and their sources gave the same number of bytes: those up to the end of the last
/// of these credentials.
pub fn each_credential_ends_at_one_place()
    ensures { (whole : List ℕ) (left right : Option (List ℕ)) (layout also : Layout) (at here : ℕ)
        (one other : Cache) → HasTaken layout (Some whole) left at one
        → HasTaken also (Some whole) right here other
        → length one.credentials ≡ length other.credentials → (one ≡ other) × (at ≡ here) }
{}
