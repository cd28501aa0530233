//! Faults, and laws.

use krb_ccache::CacheFault;
use krb_file::{ReadFault, Short, SinkFailed, SourceFailed};
use krb_keytab::KeytabFault;
use krb_name::TextFault;
use krb_words::{Answer, Words};

static NAME: [TextFault; 3] = [
    TextFault::BadText { at: 7 },
    TextFault::NoRealm,
    TextFault::OutOfMemory,
];

static READ: [ReadFault; 2] = [ReadFault::Read, ReadFault::OutOfMemory];

static KEYTAB: [KeytabFault; 7] = [
    KeytabFault::Version,
    KeytabFault::Truncated { at: 52 },
    KeytabFault::BadEntry { at: 2 },
    KeytabFault::TooLong,
    KeytabFault::NoSuchEntry,
    KeytabFault::Read,
    KeytabFault::OutOfMemory,
];

static CACHE: [CacheFault; 6] = [
    CacheFault::Version,
    CacheFault::Header,
    CacheFault::BadItem { at: 46 },
    CacheFault::TooLong,
    CacheFault::Read,
    CacheFault::OutOfMemory,
];

/// A fault's text, and its offset.
pub(crate) fn fault(words: &mut Words, out: &mut Answer) -> Option<()> {
    let kind = words.next()?;
    let index = words.size()?;
    match kind {
        "name" => out.shown(*NAME.get(index)?),
        "read" => out.shown(*READ.get(index)?),
        "flow" if index == 0 => out.shown(Short),
        "flow" if index == 1 => out.shown(SinkFailed),
        "flow" if index == 2 => out.shown(SourceFailed),
        "keytab" => keytab(*KEYTAB.get(index)?, out),
        "cache" => cache(*CACHE.get(index)?, out),
        _ => None,
    }
}

fn keytab(fault: KeytabFault, out: &mut Answer) -> Option<()> {
    out.shown(fault);
    out.shown_or_none(fault.at())
}

fn cache(fault: CacheFault, out: &mut Answer) -> Option<()> {
    out.shown(fault);
    out.shown_or_none(fault.at())
}

/// Calls each law.
pub(crate) fn laws(out: &mut Answer) -> Option<()> {
    krb_file::laws::bytes_are_fields();
    krb_file::laws::numbers_are_fields();
    krb_file::laws::signed_numbers_are_fields();
    krb_file::laws::data_are_fields();
    krb_file::laws::repeated_data_are_fields();
    krb_file::laws::the_limit_is_one();
    krb_name::laws::a_text_has_one_answer();
    krb_name::laws::a_text_has_one_name();
    krb_name::laws::the_same_names_have_one_hash();
    krb_keytab::laws::each_file_has_one_answer();
    krb_keytab::laws::a_choice_exists();
    krb_keytab::laws::each_choice_is_one();
    krb_keytab::laws::each_keytab_is_divided_once();
    krb_keytab::laws::records_hold_the_entries();
    krb_keytab::laws::each_fault_lies_within();
    krb_keytab::laws::a_reader_tells_the_file();
    krb_keytab::laws::a_reader_gives_the_first_entries();
    krb_keytab::laws::each_entry_ends_at_one_place();
    krb_keytab::laws::each_reader_gives_the_same_entries();
    krb_ccache::laws::each_file_has_one_answer();
    krb_ccache::laws::each_value_has_one_spelling();
    krb_ccache::laws::a_header_holds_one_offset();
    krb_ccache::laws::the_offset_is_computed();
    krb_ccache::laws::each_fault_lies_within();
    krb_ccache::laws::a_source_tells_its_file();
    krb_ccache::laws::a_reader_stops_in_one_place();
    krb_ccache::laws::a_reader_gives_the_first_credentials();
    krb_ccache::laws::each_credential_ends_at_one_place();
    out.word("laws")
}
