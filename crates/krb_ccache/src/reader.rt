//! A reader that returns the credentials of a cache one at a time.

ghost use Rattle.std.specs.Prelude.{◌≡◌, ◌+◌, ◌≤◌, ◌↔◌, ℕ, true, false, List, [], max, length, IsTrue, IfOk, IfErr, IfSome, MatchResult, OnErr, Option, Ok, Err, None};
ghost use Rattle.krb_file.specs.Flow.{counted};
ghost use Rattle.krb_ccache.specs.Configuration.{IsConfiguration};
ghost use Rattle.krb_ccache.specs.Fault.{failed_reads};
ghost use Rattle.krb_file.specs.File.{file_limit, TakesFile, GivesWithin};
ghost use Rattle.krb_ccache.specs.Format.{head_bytes, credential_length};
ghost use Rattle.krb_ccache.specs.Offset.{IsOffsetOf};
ghost use Rattle.krb_ccache.specs.Reader.{ended_by as ended_by_answer, ended_passed, passed, last_answer, with_credential, HasRead, Gave, GaveOne, PassedOne, HeldPart, StaysAtEnd, GaveFault, EndsFile, HasFileFault, StopsInFile};
ghost use Rattle.krb_ccache.specs.Spelling.{name_bytes};
ghost use Rattle.krb_ccache.specs.Value.{Cache, cache_of};
ghost use Rattle.krb_ccache.specs.Types.{Credential as CredentialValue};

use crate::configuration::{is_entry, offset_in};
use crate::credential::Credential;
use crate::fault::CacheFault;
use crate::stepping::{Start, begin, step, step_past};
use krb_file::{Source, Window};
use krb_name::Principal;
use std::alloc::Global;
use std::marker::Model;

/// Reads a cache from a source, one credential at a time.
///
/// Frees what it has read: it holds the bytes of the header, of the default principal or of one
/// credential, in one buffer. It keeps the fields of the header and the default principal.
#[derive(Drop)]
pub struct CredentialReader<S> {
    window: Window<S>,
    start: Start,
    ended: Option<Result<(), CacheFault>>,
}

impl<S> Model for CredentialReader<S> {
    ghost use Rattle.std.specs.Prelude.{◌≡◌, ◌≤◌, ◌+◌, None};
    ghost use Rattle.krb_file.specs.File.{file_limit};
    ghost use Rattle.krb_ccache.specs.Reader.{Reading};
    ghost use Rattle.krb_ccache.specs.Value.{FitsHeader};

    ghost Value = { Reading S };

    ghost view = { λ r. record {
      source = r.window.source;
      layout = r.start.layout;
      header = r.start.header.items;
      default_principal = r.start.default_principal;
      given = r.window.given;
      held = r.window.peak;
      ended = r.ended;
    } };

    ghost invariant = { λ r. FitsHeader r.start.header.items
        × (r.window.peak ≤ file_limit) × (r.ended ≡ None → r.window.given ≤ file_limit)
        × (r.window.given ≤ file_limit + 1) };
}

impl<S: Source> CredentialReader<S> {
    /// Reads the version, the header (if there is one) and the default principal of `source`, and
    /// not a byte more.
    ///
    /// # Errors
    /// The source is returned, with:
    /// - `Read`: a read of the source failed.
    /// - `OutOfMemory`: there is no memory for what was read.
    /// - `TooLong`, `Version`, `Header` or `BadItem`, as `CCache::parse` answers for all the bytes
    ///   that the source had: it was read to its end first, or to one byte past 16,777,216.
    ///
    /// Source: MIT krb5, "Credential cache file format", versions 3 and 4.
    pub fn open(alloc: Global, source: S) -> Result<CredentialReader<S>, (S, CacheFault)>
        ensures read { IfOk result (λ reader. HasRead S.remaining (S.remaining source) reader
            (cache_of reader.header reader.default_principal [])) }
        ensures held { IfOk result (λ reader. reader.held
            ≡ max (length (head_bytes reader.layout reader.header)) (length (name_bytes reader.default_principal))) }
        ensures fault { IfErr result (λ back. GaveFault (S.remaining source) (S.remaining back.0) back.1) }

        // Whatever the answer is, the source gave at most one byte past the limit.
        ensures gave { MatchResult result
            (λ reader. GivesWithin (S.remaining source) (S.remaining reader.source) 0 reader.given)
            (λ back. TakesFile (S.remaining source) (S.remaining back.0)) }

        ensures none_failed { IfOk result (λ reader.
            S.failure_count reader.source ≡ S.failure_count source) }
        ensures failed { IfErr result (λ back. S.failure_count back.0
            ≡ counted (S.failure_count source) (failed_reads {T = Unit {0}} (Err back.1))) }
        ensures kept { IfOk result (λ reader. S.lender reader.source ≡ S.lender source) }
        ensures handed_back { IfErr result (λ back. S.lender back.0 ≡ S.lender source) }
    {
        let mut window = Window::new(alloc, source);
        match begin(alloc, &mut window) {
            Ok(start) => Ok(CredentialReader {
                window,
                start,
                ended: None,
            }),
            Err(fault) => Err((window.into_source(), fault)),
        }
    }

    /// Reads the next credential, and not a byte more; returns `None` at the end. The end and every
    /// fault are returned again by each later call, which reads nothing.
    ///
    /// # Errors
    /// - `Read`: a read of the source failed.
    /// - `OutOfMemory`: there is no memory for the credential or its bytes.
    /// - `TooLong` or `BadItem`, as `CCache::parse` answers for all the bytes: no whole credential
    ///   within the limit comes next, and the source was read to its end first, or to one byte past
    ///   16,777,216.
    #[tactic(auto, using(crate::proofs::ReaderLaws::next_more, crate::proofs::ReaderLaws::stays, crate::proofs::StepLaws::step_limit))]
    pub fn next(&mut self, alloc: Global) -> Result<Option<Credential>, CacheFault>

        // The end and every fault are answered again, and the reader stays as it was.
        ensures again { IfSome self.old.ended
            (λ ended. (result ≡ last_answer ended) × (self.new ≡ self.old)) }
        ensures ended { self.old.ended ≡ None → self.new.ended ≡ ended_by_answer result }

        // Of a source with bytes to come, a reader has read the first, and they are a start with the
        // credentials so far.
        ensures item { (from : Option (List ℕ)) (cache : Cache)
            → HasRead S.remaining from self.old cache
            → IfOk result (λ next. IfSome next (λ credential.
            HasRead S.remaining from self.new (with_credential cache credential))) }
        ensures end { EndsFile S.remaining self.old self.new (result ≡ Ok None) }
        ensures stays { self.old.ended ≡ None → result ≡ Ok None
            → StaysAtEnd (S.remaining self.new.source) self.old self.new }
        ensures fault { HasFileFault S.remaining self.old self.new result }

        // No whole credential within the limit is passed over.
        ensures stops { StopsInFile S.remaining self.old result }

        ensures more { self.old.ended ≡ None → IfOk result (λ next. IfSome next (λ credential.
            GaveOne self.old.layout self.old.given self.new.given credential)) }
        ensures given { Gave (S.remaining self.old.source) (S.remaining self.new.source) self.old self.new }
        ensures limit { self.new.given ≤ file_limit + 1 }
        ensures layout { self.new.layout ≡ self.old.layout }
        ensures header { self.new.header ≡ self.old.header }
        ensures default { self.new.default_principal ≡ self.old.default_principal }
        ensures lent { S.lender self.new.source ≡ S.lender self.old.source }
        ensures held { self.old.ended ≡ None → IfOk result (λ next. IfSome next (λ credential.
            self.new.held ≡ max self.old.held (credential_length self.old.layout credential))) }
        ensures part { self.old.ended ≡ None → OnErr result (HeldPart self.old.layout (S.remaining self.old.source)
            (S.remaining self.new.source) self.old.held self.new.held) }
        ensures failed { self.old.ended ≡ None → S.failure_count self.new.source
            ≡ counted (S.failure_count self.old.source) (failed_reads result) }
    {
        if let Some(ended) = self.ended {
            return ended.map(|()| None);
        }
        let answer = step(alloc, self.start.layout, &mut self.window);
        self.ended = ended_by(is_there(&answer));
        answer
    }

    /// Reads the next credential as `next` does, and not a byte more, and returns whether there is
    /// one. The credential isn't made, and memory is allocated only for its bytes.
    ///
    /// After a credential, at the end and at a fault the reader is where `next` would have left it.
    /// The two calls can be mixed.
    ///
    /// # Errors
    /// Those of `next`; `OutOfMemory` only if there is no memory for the bytes.
    ///
    /// Source: MIT krb5, "Credential cache file format", versions 3 and 4.
    #[tactic(auto, using(crate::proofs::ReaderLaws::passed_end, crate::proofs::ReaderLaws::stays, crate::proofs::ReaderLaws::on_err, crate::proofs::StepLaws::step_limit))]
    pub fn pass(&mut self) -> Result<bool, CacheFault>

        // The end and every fault are answered again, and the reader stays as it was.
        ensures again { IfSome self.old.ended
            (λ ended. (result ≡ passed (last_answer ended)) × (self.new ≡ self.old)) }
        ensures ended { self.old.ended ≡ None → self.new.ended ≡ ended_passed result }

        // Each other clause is one of `next`, except that the credential isn't returned.
        ensures item { self.old.ended ≡ None → result ≡ Ok true → (credential : CredentialValue)
            × PassedOne S.remaining self.old self.new credential }
        ensures end { EndsFile S.remaining self.old self.new (result ≡ Ok false) }
        ensures stays { self.old.ended ≡ None → result ≡ Ok false
            → StaysAtEnd (S.remaining self.new.source) self.old self.new }
        ensures fault { HasFileFault S.remaining self.old self.new result }
        ensures stops { StopsInFile S.remaining self.old result }
        ensures given { Gave (S.remaining self.old.source) (S.remaining self.new.source) self.old self.new }
        ensures limit { self.new.given ≤ file_limit + 1 }
        ensures layout { self.new.layout ≡ self.old.layout }
        ensures header { self.new.header ≡ self.old.header }
        ensures default { self.new.default_principal ≡ self.old.default_principal }
        ensures lent { S.lender self.new.source ≡ S.lender self.old.source }
        ensures part { self.old.ended ≡ None → OnErr result (HeldPart self.old.layout (S.remaining self.old.source)
            (S.remaining self.new.source) self.old.held self.new.held) }
        ensures failed { self.old.ended ≡ None → S.failure_count self.new.source
            ≡ counted (S.failure_count self.old.source) (failed_reads result) }
    {
        if let Some(ended) = self.ended {
            return ended.map(|()| false);
        }
        let answer = step_past(self.start.layout, &mut self.window);
        self.ended = ended_by(answer);
        answer
    }

    /// Returns how many bytes were held at once at most. It is never more than the header, the
    /// default principal or the longest credential so far has, nor more than 16,777,216. At a
    /// fault, the faulty part has as many bytes as were there.
    pub fn held(&self) -> usize
        ensures held { result ≡ self.now.held }
        ensures limit { result ≤ file_limit }
    {
        let _ended = self.ended;
        self.window.held()
    }

    /// Returns the source.
    pub fn source(&self) -> &S
        ensures { result.now ≡ self.now.source }
    {
        self.window.source()
    }

    /// Returns the source itself. Whatever it gave after the last credential is lost.
    pub fn into_source(self) -> S
        ensures { result ≡ self.source }
    {
        let CredentialReader {
            window,
            start: _,
            ended: _,
        } = self;
        window.into_source()
    }

    /// Returns the default principal, who owns the cache.
    pub fn default_principal(&self) -> &Principal
        ensures { result.now ≡ self.now.default_principal }
    {
        &self.start.default_principal
    }

    /// Returns the KDC's clock offset, as `CCache::kdc_offset` does.
    pub fn kdc_offset(&self) -> Option<(i32, i32)>
        ensures { IsOffsetOf self.now.header result }
    {
        offset_in(self.start.header.as_slice())
    }

    /// Returns whether `credential` is a configuration entry, as `CCache::is_configuration` does.
    pub fn is_configuration(credential: &Credential) -> bool
        ensures { IsTrue result ↔ IsConfiguration credential.now }
    {
        is_entry(credential)
    }
}

// Whether a credential was answered.
fn is_there(answer: &Result<Option<Credential>, CacheFault>) -> Result<bool, CacheFault>
    ensures { result ≡ passed answer.now }
{
    match answer {
        Ok(next) => Ok(next.is_some()),
        Err(fault) => Err(*fault),
    }
}

// The end or the fault that an answer is.
fn ended_by(answer: Result<bool, CacheFault>) -> Option<Result<(), CacheFault>>
    ensures { result ≡ ended_passed answer }
{
    match answer {
        Ok(true) => None,
        Ok(false) => Some(Ok(())),
        Err(fault) => Some(Err(fault)),
    }
}
