//! The service's side: building a reply.

ghost use Rattle.std.specs.Prelude.{◌≤◌, IfOk, length};
ghost use Rattle.krb_msg.specs.Module.{enc_ap_rep_part};
ghost use Rattle.krb_ap.specs.Answer.{taken_of};
ghost use Rattle.krb_ap.specs.Reply.{IsReply, reply_part_for};
ghost use Rattle.krb_ap.specs.Written.{IsWritten};

use crate::accepted::Accepted;
use crate::inner_laws::writing;
use crate::keys::{encrypted, raw_key, seal_once};
use krb_enc::Key;
use krb_msg::{ApRep, EncApRepPart, EncodeFault, usage};
use std::alloc::{AllocError, Global};

/// What a service chooses for a reply. There is no `Debug`, so no log shows a key.
#[derive(Drop)]
pub struct ReplyOptions {
    /// A key for this session.
    pub subkey: Option<Key>,
    /// The service's first sequence number.
    pub seq: Option<u32>,
}

impl Accepted {
    /// Builds the reply that shows the client that its service opened the ticket (RFC 4120,
    /// sections 3.2.4 and 5.5.2). It repeats the client's time, and is sealed under the ticket's
    /// session key.
    ///
    /// Call it if the request has `mutual`; it doesn't check that itself. `confounder` is 16 random
    /// bytes, new for each call.
    ///
    /// # Errors
    /// `AllocError`: there is no memory for the reply.
    pub fn reply(
        &self,
        alloc: Global,
        confounder: &[u8; 16],
        options: ReplyOptions,
    ) -> Result<Vec<u8>, AllocError>
        ensures { IfOk result (λ bytes. IsReply (taken_of self.now) confounder.now options bytes.items) }
    {
        writing();
        krb_msg::laws::reply_size();
        let plain = self.reply_part(alloc, &options)?;
        let keys = self.session_key.for_usage(usage::AP_REP);
        let cipher = seal_once(alloc, keys, confounder, plain.as_slice())?;
        let reply = ApRep {
            enc_part: encrypted(&self.session_key, cipher),
        };
        match reply.encode(alloc) {
            Ok(bytes) => Ok(bytes),
            Err(EncodeFault::OutOfMemory) => Err(AllocError),
            Err(EncodeFault::TooLong) => unreachable!(),
        }
    }

    // What is sealed.
    #[inline(never)]
    fn reply_part(&self, alloc: Global, options: &ReplyOptions) -> Result<Vec<u8>, AllocError>
        ensures written { IfOk result (λ plain.
            IsWritten enc_ap_rep_part (reply_part_for (taken_of self.now) options.now) plain.items) }
        ensures length { IfOk result (λ plain. length plain.items ≤ 114) }
    {
        writing();
        krb_msg::laws::reply_size();
        let part = EncApRepPart {
            ctime: self.ctime,
            cusec: self.cusec,
            subkey: raw_key(alloc, &options.subkey)?,
            seq_number: options.seq,
        };
        match part.encode(alloc) {
            Ok(plain) => Ok(plain),
            Err(EncodeFault::OutOfMemory) => Err(AllocError),
            Err(EncodeFault::TooLong) => unreachable!(),
        }
    }
}
