//! A credential cache.

ghost use Rattle.std.specs.Prelude.{◌≡◌, ◌≢◌, ◌⊎◌, ◌≤◌, ◌<◌, All, IsTrue, ◌↔◌, IfOk, IfErr, IfSome, IfNone, OnOk, OnErr, Some, Ok, Err, Result, SomeIff, None, length, drop};
ghost use Rattle.krb_file.specs.Flow.{counted};
ghost use Rattle.krb_ccache.specs.Value.{Cache, cache_of, server_of, HasLengths, Fits};
ghost use Rattle.krb_ccache.specs.Types.{CacheFault as CacheFaultValue};
ghost use Rattle.krb_ccache.specs.Configuration.{IsConfiguration};
ghost use Rattle.krb_ccache.specs.Fault.{offset_of, failed_reads};
ghost use Rattle.krb_file.specs.File.{file_limit, ReadsFile};
ghost use Rattle.krb_name.specs.Named.{IsFirstNamed, HasOtherName};
ghost use Rattle.krb_ccache.specs.Format.{written, IsCache, IsFaultOf, IsAnswerOf};
ghost use Rattle.krb_ccache.specs.Offset.{IsOffsetOf};
ghost use Rattle.krb_ccache.specs.Inner.Standing.{Leaves};

use crate::checking::check;
use crate::configuration::{is_entry, offset_in};
use crate::credential::{Credential, HeaderField};
use crate::fault::CacheFault;
use crate::layout::VERSION_4;
use crate::part::{Part, behind_each, fits_each, write_each};
use crate::stepping::{begin, steps};
use crate::writing::{behind_header, header_fits, write_header, write_u16};
use krb_file::{FILE_LIMIT, Feed, Slice, Source, Window};
use krb_name::{NamedList, Principal, SoughtName};
use std::alloc::{AllocError, Global};
use std::marker::Model;

/// A credential cache: the fields of its header, its default principal and its credentials, in
/// their order. A contract sees it as the record of these.
///
/// Its parts have counts and lengths that fit into the file format.
#[derive(Drop)]
pub struct CCache {
    header: Vec<HeaderField>,
    default_principal: Principal,
    credentials: NamedList<Credential>,
}

impl Model for CCache {
    ghost Value = { Cache };

    ghost view = { λ c. record {
      header = c.header.items;
      default_principal = c.default_principal;
      credentials = c.credentials;
    } };

    ghost invariant = { λ c. Fits (record {
      header = c.header.items;
      default_principal = c.default_principal;
      credentials = c.credentials;
    }) };
}

impl CCache {
    /// Makes a cache from the fields of its header, its default principal and its credentials.
    ///
    /// Returns `None` if the value of a field of the header, or all fields with their tags and
    /// lengths, have more than 65,535 bytes; if a field of tag 1 doesn't have 8 bytes; or if there
    /// are more than 4,294,967,295 components, addresses or elements of authorization data, or
    /// bytes in a realm, a component, a key, an address, an element or a ticket. Allocates no
    /// memory.
    pub fn from_parts(
        header: Vec<HeaderField>,
        default_principal: Principal,
        credentials: Vec<Credential>,
    ) -> Option<CCache>
        ensures { SomeIff result
            (HasLengths (cache_of header.items default_principal credentials.items))
            (cache_of header.items default_principal credentials.items) }
    {
        if !header_fits(&header) || !default_principal.fits() || !fits_each(&credentials) {
            return None;
        }
        Some(CCache {
            header,
            default_principal,
            credentials: NamedList::plain(credentials),
        })
    }

    /// Parses the bytes of a file.
    ///
    /// Finds a fault, and counts the credentials, before it allocates memory. Then allocates memory
    /// for their list at once, and for parts as they are read, never because of a count or a length
    /// that the bytes don't bear out. Beside each credential it keeps a hash of its server's name, of
    /// 4 bytes. After the last credential it allocates the rest of an index by server, of 8 bytes for
    /// each credential and 4 more, for `find_server`.
    ///
    /// # Errors
    /// `OutOfMemory` if the bytes are a cache and there is no memory for it; else the first
    /// that applies:
    /// - `TooLong`: there are more than 16,777,216 bytes.
    /// - `Version`: they don't begin with 0x05 0x04 or 0x05 0x03.
    /// - `Header`: in a file of version 0x0504 the header is cut off, fields don't fill it exactly,
    ///   or a field of tag 1 doesn't have 8 bytes.
    /// - `BadItem`: no principal begins after the header, with the offset after the header (2 for
    ///   version 0x0503, which has none); or with the offset of the first credential that isn't
    ///   whole, or whose `is_skey` byte is neither 0 nor 1.
    ///
    /// Source: MIT krb5, "Credential cache file format", version 4; of version 3 the layout that
    /// docs/FORMATS.md gives.
    #[tactic(auto, using(crate::proofs::AnswerLaws::only_answer, crate::proofs::AnswerLaws::one_fault))]
    pub fn parse(alloc: Global, bytes: &[u8]) -> Result<CCache, CacheFault>
        ensures found { IfOk result (λ cache. IsCache bytes.now cache) }
        ensures fault { IfErr result (λ fault.
            fault ≢ CacheFault.OutOfMemory → IsFaultOf bytes.now fault) }

        // If the bytes are a cache, or have a fault, that is the answer.
        ensures only { (answer : Result Cache CacheFault) → IsAnswerOf bytes.now answer
            → (result ≡ answer) ⊎ (result ≡ Err CacheFault.OutOfMemory) }
        // Out of memory never takes the place of a fault.
        ensures faulty { (fault : CacheFaultValue) → IsFaultOf bytes.now fault → result ≡ Err fault }
        ensures offset { IfErr result (λ fault.
            IfSome (offset_of fault) (λ at. at ≤ length bytes.now)) }
    {
        let count = check(bytes)?;
        match CCache::read_from(alloc, &mut Slice::new(bytes), count) {
            Ok(cache) => Ok(cache),
            Err(_) => Err(CacheFault::OutOfMemory),
        }
    }

    /// Reads a source to its end, or to one byte past 16,777,216, and parses what it gave.
    ///
    /// Allocates memory as parts are read, also for the lists of credentials and of hashes, and after
    /// the last credential the index that `parse` allocates.
    ///
    /// # Errors
    /// - `Read`: a read of the source failed. The source counted a failure, as it does for no other
    ///   answer.
    /// - Those of `parse`, for all the bytes that the source still had. But `OutOfMemory` may be
    ///   reported instead of a fault that comes later.
    ///
    /// Source: MIT krb5, "Credential cache file format", versions 3 and 4.
    pub fn read<S: Source>(alloc: Global, source: &mut S) -> Result<CCache, CacheFault>
        ensures reads { ReadsFile IsAnswerOf CacheFault.OutOfMemory CacheFault.Read
            (S.remaining source.old) (S.remaining source.new) result }
        ensures failed { S.failure_count source.new
            ≡ counted (S.failure_count source.old) (failed_reads result) }
    {
        let mut window = Window::new(alloc, source);
        let answer = CCache::read_from(alloc, &mut window, 0);
        let _source = window.into_source();
        answer
    }

    // Reads a cache to its end, and allocates memory for so many credentials at once.
    fn read_from<F: Feed>(
        alloc: Global,
        feed: &mut F,
        expected: usize,
    ) -> Result<CCache, CacheFault>
        requires start { (F.hand feed.old).given ≡ 0 }
        ensures reads { ReadsFile IsAnswerOf CacheFault.OutOfMemory CacheFault.Read
            (F.hand feed.old).source (F.hand feed.new).source result }
        ensures failed { F.failure_count feed.new ≡ counted (F.failure_count feed.old) (failed_reads result) }
        ensures lent { F.lender feed.new ≡ F.lender feed.old }
    {
        let start = begin(alloc, feed)?;
        let credentials = steps(alloc, start.layout, feed, expected)?;
        Ok(CCache {
            header: start.header,
            default_principal: start.default_principal,
            credentials: credentials.finish(alloc)?,
        })
    }

    /// Returns the KDC's clock offset, in seconds and microseconds: that of the header's first
    /// field of tag 1. Returns `None` if there is no such field.
    pub fn kdc_offset(&self) -> Option<(i32, i32)>
        ensures { IsOffsetOf self.now.header result }
    {
        offset_in(self.header.as_slice())
    }

    /// Returns whether `credential` is a configuration entry: its server's realm is `X-CACHECONF:`
    /// and its server's first component is `krb5_ccache_conf_data`.
    pub fn is_configuration(credential: &Credential) -> bool
        ensures { IsTrue result ↔ IsConfiguration credential.now }
    {
        is_entry(credential)
    }

    /// Writes the bytes of a file of version 0x0504, whichever version the cache was read from.
    /// They read back to the same cache. If the cache was read from version 0x0504, they are the
    /// bytes that were read.
    ///
    /// The number of bytes is computed first, and memory for all of them is allocated at once.
    ///
    /// # Errors
    /// - `TooLong`: the file would have more than 16,777,216 bytes.
    /// - `OutOfMemory`: there is no memory for the bytes.
    ///
    /// Source: MIT krb5, "Credential cache file format", version 4.
    #[tactic(auto, using(crate::proofs::LayoutLaws::written_cache))]
    pub fn to_bytes(&self, alloc: Global) -> Result<Vec<u8>, CacheFault>
        ensures written { IfOk result (λ bytes. bytes.items ≡ written self.now) }
        ensures read_back { IfOk result (λ bytes. IsCache bytes.items self.now) }
        ensures within { OnOk result (length (written self.now) ≤ file_limit) }
        ensures too_long { (result ≡ Err CacheFault.TooLong)
            ↔ (file_limit < length (written self.now)) }
        ensures memory { OnErr result
            ((result ≡ Err CacheFault.TooLong) ⊎ (result ≡ Err CacheFault.OutOfMemory)) }
    {
        let Some(left) = self.room_behind(FILE_LIMIT) else {
            return Err(CacheFault::TooLong);
        };
        Ok(self.written(alloc, FILE_LIMIT - left)?)
    }

    // What the file leaves of so much room.
    fn room_behind(&self, left: usize) -> Option<usize>
        ensures { Leaves left (length (written self.now)) result }
    {
        let rest = behind_header(left.checked_sub(2)?, self.header.as_slice())?;
        let rest = self.default_principal.behind(rest)?;
        behind_each(rest, self.credentials.as_slice())
    }

    fn written(&self, alloc: Global, size: usize) -> Result<Vec<u8>, AllocError>
        ensures written { IfOk result (λ bytes. bytes.items ≡ written self.now) }
        ensures fits { OnOk result (Fits self.now) }
    {
        let mut bytes = Vec::with_capacity(alloc, size)?;
        write_u16(&mut bytes, VERSION_4)?;
        write_header(&mut bytes, self.header.as_slice())?;
        self.default_principal.write(&mut bytes)?;
        write_each(&mut bytes, self.credentials.as_slice())?;
        Ok(bytes)
    }

    /// Returns the default principal, who owns the cache.
    pub fn default_principal(&self) -> &Principal
        ensures { result.now ≡ self.now.default_principal }
    {
        &self.default_principal
    }

    /// Returns the credentials, including configuration entries, in the order of the file.
    pub fn credentials(&self) -> &[Credential]
        ensures { result.now ≡ self.now.credentials }
    {
        self.credentials.as_slice()
    }

    /// Returns the index of the first credential, from the index `from` on, whose server has the
    /// name `server`. Returns `None` if there is none. Name types aren't compared.
    ///
    /// In a cache that was parsed or read, a name is compared only if its hash is that of `server`,
    /// and finding it takes as long with many credentials as with few, unless their servers were
    /// chosen so that many share a place in the index. In a cache that was made by `from_parts` each
    /// is compared.
    pub fn find_server(&self, server: &Principal, from: usize) -> Option<usize>
        ensures found { IfSome result (IsFirstNamed server_of self.now.credentials server.now from) }
        ensures within { IfSome result (λ at. at < length self.now.credentials) }
        ensures none { IfNone result (All (HasOtherName server_of server.now) (drop from self.now.credentials)) }
    {
        self.credentials.find(&SoughtName::new(server), from)
    }
}
