//! Examples of names, keytabs and caches.

use anyhow::Result;
use krb_ccache::CCache;
use krb_file::{ReadSource, WriteSink, write_all};
use krb_index::{HashIndex, Maxima};
use krb_keytab::{EntryReader, Keytab};
use krb_name::{Bytes, Components, Principal};
use krb_readable::readable_keytab;
use std::alloc::Global;
use std::fs::File;
use std::io;

/// Finds hashes and numbers in lists.
pub fn find_in_lists(alloc: Global) -> Result<()> {
    let index = HashIndex::new(alloc, Vec::from_array(alloc, [7, 9, 7])?)?;
    index.find(7, 0); // Some(0)
    index.find(7, 1); // Some(2)
    index.find(7, 3); // None

    let mut sizes = Maxima::new(alloc, &[3, 8, 5])?;
    sizes.first(4); // Some(1)
    sizes.clear(1);
    sizes.first(4); // Some(2)
    Ok(())
}

/// Writes bytes.
pub fn write_bytes(rt: &HostRuntime) -> Result<()> {
    write_all(&mut WriteSink::new(io::writer(rt)), b"host/web@EX")?;
    Ok(())
}

/// Writes a name.
pub fn write_name(rt: &HostRuntime, alloc: Global) -> Result<()> {
    let mut components = Components::new(alloc);
    components.push(b"host")?;
    components.push(b"web")?;
    let principal = Principal {
        realm: Bytes::from_slice(alloc, b"EX")?,
        name_type: 3,
        components,
    };
    let text = principal.to_text(alloc)?; // host/web@EX
    write_all(&mut WriteSink::new(io::writer(rt)), text.as_bytes())?;
    Ok(())
}

/// Prints the entries of a keytab.
pub fn print_keytab(rt: &HostRuntime, alloc: Global, file: File) -> Result<()> {
    let keytab = Keytab::read(alloc, &mut ReadSource::new(file))?;
    for entry in keytab.entries() {
        let principal = entry.principal().to_text(alloc)?;
        let kvno = entry.kvno();
        let etype = entry.etype();
        println!(rt; "{kvno} {etype} {principal}")?; // 3 20 host/web@EX
    }
    Ok(())
}

/// Prints the version numbers of a keytab's keys.
pub fn print_versions(rt: &HostRuntime, alloc: Global, file: File) -> Result<()> {
    let mut reader = EntryReader::new(alloc, ReadSource::new(file));
    while let Some(entry) = reader.next(alloc)? {
        let kvno = entry.kvno();
        println!(rt; "{kvno}")?;
    }
    Ok(())
}

/// Prints a keytab as a table.
pub fn print_table(rt: &HostRuntime, alloc: Global, file: File) -> Result<()> {
    let keytab = Keytab::read(alloc, &mut ReadSource::new(file))?;
    let text = readable_keytab(alloc, &keytab)?;
    print!(rt; "{text}")?;
    // KVNO  ENCTYPE                     TIMESTAMP             PRINCIPAL
    // 3     aes128-cts-hmac-sha256-128  2023-11-14T22:13:20Z  host/web@EX
    Ok(())
}

/// Prints the tickets of a cache.
pub fn print_cache(rt: &HostRuntime, alloc: Global, file: File) -> Result<()> {
    let cache = CCache::read(alloc, &mut ReadSource::new(file))?;
    let default = cache.default_principal().to_text(alloc)?;
    println!(rt; "default {default}")?; // default alice@EX
    for credential in cache.credentials() {
        if !CCache::is_configuration(credential) {
            let server = credential.server.to_text(alloc)?;
            let endtime = credential.endtime;
            println!(rt; "{endtime} {server}")?; // 1700036000 host/web@EX
        }
    }
    Ok(())
}
