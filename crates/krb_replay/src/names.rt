//! The names of a service and a client, as bytes.

ghost use Rattle.std.specs.Prelude.{◌≡◌, IfOk};
ghost use Rattle.krb_replay.specs.Bytes.{HasLengths, name_bytes};
ghost use Rattle.krb_replay.specs.Inner.Names.{hash_of};
ghost use Rattle.krb_replay.specs.Inner.Order.{bytes_cmp, name_cmp, pair_cmp};
ghost use Rattle.krb_replay.specs.Stamp.{name_of};

use crate::stamp_bytes::write_name;
use krb_name::Principal;
use std::alloc::{AllocError, Global};
use std::cmp::Ordering;
use std::marker::Model;

/// The names of a service and a client, one after the other, as bytes: in the form of
/// [`Tuple::to_bytes`](crate::Tuple::to_bytes). A hash of the client's name stands beside them, so
/// that the bytes are compared only for clients of one hash.
#[derive(Debug, Drop)]
pub(crate) struct Names {
    bytes: Vec<u8>,
    server_len: u32,
    client_hash: u32,
}

impl Model for Names {
    ghost use Rattle.std.specs.Prelude.{drop};
    ghost use Rattle.krb_replay.specs.Inner.Names.{AreNames, name_at};
    ghost use Rattle.krb_replay.specs.Inner.Order.{TwoNames};

    ghost Value = { TwoNames };

    ghost view = { λ names. (name_at names.bytes.items, name_at (drop names.server_len names.bytes.items)) };

    ghost invariant = { λ names. AreNames names.bytes.items names.server_len names.client_hash };
}

impl Names {
    /// Copies the names, without their types. It fails if there is no memory, or the service's name
    /// takes 4 GiB or more.
    pub(crate) fn new(
        alloc: Global,
        server: &Principal,
        client: &Principal,
    ) -> Result<Names, AllocError>
        ensures { IfOk result (λ names. names ≡ (name_of server.now, name_of client.now)) }
    {
        let client_hash = client.name_hash();
        let size = size_of(server).saturating_add(size_of(client));
        let mut bytes = Vec::with_capacity(alloc, size)?;
        write_name(&mut bytes, server)?;
        let server_len = in_four_bytes(bytes.len())?;
        write_name(&mut bytes, client)?;
        Ok(Names {
            bytes,
            server_len,
            client_hash,
        })
    }

    /// Returns the bytes of the service's name.
    pub(crate) fn server(&self) -> &[u8]
        ensures bytes { result.now ≡ name_bytes self.now.0 }
        ensures lengths { HasLengths self.now.0 }
    {
        &self.bytes.as_slice()[..self.server_len as usize]
    }

    /// Returns the bytes of the client's name.
    pub(crate) fn client(&self) -> &[u8]
        ensures bytes { result.now ≡ name_bytes self.now.1 }
        ensures lengths { HasLengths self.now.1 }
    {
        &self.bytes.as_slice()[self.server_len as usize..]
    }

    /// Compares the names of the services.
    pub(crate) fn compare_servers(&self, other: &Names) -> Ordering
        ensures { result ≡ bytes_cmp self.now.0 other.now.0 }
    {
        self.server().cmp(&other.server())
    }

    /// Returns the hash of the client's name.
    pub(crate) fn client_hash(&self) -> u32
        ensures { result ≡ hash_of self.now.1 }
    {
        self.client_hash
    }

    /// Compares the clients, by the hashes of their names first, and then the services.
    pub(crate) fn compare(&self, other: &Names) -> Ordering
        ensures { result ≡ pair_cmp self.now other.now }
    {
        match self.compare_clients(other) {
            Ordering::Equal => self.compare_servers(other),
            apart => apart,
        }
    }

    fn compare_clients(&self, other: &Names) -> Ordering
        ensures { result ≡ name_cmp self.now.1 other.now.1 }
    {
        match self.client_hash().cmp(&other.client_hash()) {
            Ordering::Equal => self.compare_client_bytes(other),
            apart => apart,
        }
    }

    /// Compares the names of the clients by their bytes alone.
    pub(crate) fn compare_client_bytes(&self, other: &Names) -> Ordering
        ensures { result ≡ bytes_cmp self.now.1 other.now.1 }
    {
        self.client().cmp(&other.client())
    }
}

// How many bytes the name takes: three numbers of 8 bytes at least, so that no more room is asked
// for than is used.
fn size_of(name: &Principal) -> usize {
    let mut size = name.realm.len().saturating_add(16);
    for component in name.components.iter() {
        size = size.saturating_add(component.len()).saturating_add(8);
    }
    size
}

// The same length in 4 bytes. It fails if the length needs more.
fn in_four_bytes(len: usize) -> Result<u32, AllocError>
    ensures { IfOk result (λ short. short ≡ len) }
{
    match u32::try_from(len) {
        Ok(short) => Ok(short),
        Err(_) => Err(AllocError),
    }
}
