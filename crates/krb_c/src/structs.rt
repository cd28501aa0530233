// Made from interface.toml by `make generate`. Don't edit this file.

//! The structs of arguments and results, as the header has them.

/// The answer of a call. Numbers that don't belong to the code are 0.
#[repr(C)]
#[derive(Clone, Copy)]
pub struct Answer {
    /// A fevstunik_code.
    pub code: u32,
    /// The error code of RFC 4120, section 7.5.9, or 0 if the code has none (0 isn't success).
    pub kerberos: i32,
    /// The place of a fault, in bytes from the start of the argument.
    pub at: usize,
    /// The number of bytes that were written, or are needed.
    pub size: usize,
}

/// A moment: whole seconds since 1970-01-01T00:00:00Z, without leap seconds, and the microseconds
/// after them.
#[repr(C)]
#[derive(Clone, Copy)]
pub struct Time {
    /// -62,167,219,200 to 253,402,300,799.
    pub seconds: i64,
    /// 0 to 999,999.
    pub micros: u32,
}

/// A place in the buffer.
#[repr(C)]
#[derive(Clone, Copy)]
pub struct Span {
    /// Where it begins, in bytes.
    pub at: usize,
    /// How many bytes it has.
    pub size: usize,
}

/// What is known of an accepted request. The spans are places in the buffer of the call.
#[repr(C)]
#[derive(Clone, Copy)]
pub struct Known {
    /// The client as text, such as alice@EX, without a zero byte at its end.
    pub client: Span,
    /// The key that client and service share: 16 or 32 bytes.
    pub session_key: Span,
    /// The key that the client chose, if any; it may have any length.
    pub subkey: Span,
    /// The service that was asked for, as text, such as host/web@EX.
    pub service: Span,
    /// When the client was authenticated, in seconds.
    pub authtime: i64,
    /// When the ticket expires, in seconds.
    pub endtime: i64,
    /// The client's time, in seconds.
    pub ctime: i64,
    /// And the microseconds after them.
    pub cusec: u32,
    /// The ticket's flags; bit 0 of RFC 4120 is the most significant.
    pub flags: u32,
    /// The client's first sequence number, or 0.
    pub seq: u32,
    /// The type of the client's name.
    pub name_type: i32,
    /// The type of the service's name, as the ticket has it.
    pub service_type: i32,
    /// The encryption type of the session key: 19 or 20.
    pub session_type: i32,
    /// The encryption type of the client's subkey, or 0; any type.
    pub subkey_type: i32,
    /// Whether the client chose a subkey.
    pub has_subkey: bool,
    /// Whether it chose a sequence number.
    pub has_seq: bool,
    /// Whether it asks for a reply.
    pub wants_reply: bool,
}

/// What a client and a service agreed on. The spans are places in the buffer of the call.
#[repr(C)]
#[derive(Clone, Copy)]
pub struct Agreement {
    /// The client as text.
    pub client: Span,
    /// The key that client and service share: 16 or 32 bytes.
    pub session_key: Span,
    /// The key that the service chose, if any; it may have any length.
    pub service_subkey: Span,
    /// The service's first sequence number, or 0.
    pub service_seq: u32,
    /// The type of the client's name.
    pub name_type: i32,
    /// The encryption type of the session key: 19 or 20.
    pub session_type: i32,
    /// The encryption type of the service's subkey, or 0; any type.
    pub service_subkey_type: i32,
    /// Whether the service chose a subkey.
    pub has_service_subkey: bool,
    /// Whether it chose a sequence number.
    pub has_service_seq: bool,
}

/// What a side chooses for its message.
#[repr(C)]
#[derive(Clone, Copy)]
pub struct Choice {
    /// The encryption type of its subkey: 19, 20, or 0 for no subkey.
    pub subkey_type: i32,
    /// Its first sequence number.
    pub seq: u32,
    /// Whether it sends the number.
    pub has_seq: bool,
    /// Whether a client asks for a reply; a service ignores it.
    pub wants_reply: bool,
}

/// An entry of a keytab. The spans are places in the buffer of the call.
#[repr(C)]
#[derive(Clone, Copy)]
pub struct KeyEntry {
    /// Whose key it is, as text.
    pub name: Span,
    /// The key's bytes, up to 65,535.
    pub key: Span,
    /// When the entry was written, in seconds.
    pub timestamp: u32,
    /// The key's version number.
    pub kvno: u32,
    /// The type of the name.
    pub name_type: i32,
    /// The encryption type of the key; any type.
    pub key_type: i16,
}

/// What an added entry has besides its name and its key.
#[repr(C)]
#[derive(Clone, Copy)]
pub struct KeyParts {
    /// When the entry is written, in seconds.
    pub timestamp: u32,
    /// The key's version number.
    pub kvno: u32,
    /// The type of the name.
    pub name_type: i32,
    /// The encryption type of the key.
    pub key_type: i16,
}

/// A credential of a cache. The spans are places in the buffer of the call.
#[repr(C)]
#[derive(Clone, Copy)]
pub struct CacheEntry {
    /// Whose ticket it is, as text.
    pub client: Span,
    /// The ticket's service, as text; that of a configuration entry ends with `@X-CACHECONF:`.
    pub server: Span,
    /// The session key.
    pub key: Span,
    /// The bytes of the ticket, or the value of a configuration entry.
    pub ticket: Span,
    /// When the client was authenticated, in seconds.
    pub authtime: u32,
    /// When the ticket becomes valid, in seconds, or 0.
    pub starttime: u32,
    /// When it expires, in seconds.
    pub endtime: u32,
    /// The end of the time in which it can be renewed, in seconds, or 0.
    pub renew_till: u32,
    /// The ticket's flags; bit 0 of RFC 4120 is the most significant.
    pub flags: u32,
    /// The type of the client's name.
    pub client_type: i32,
    /// The type of the service's name.
    pub server_type: i32,
    /// The encryption type of the session key; any type.
    pub key_type: i16,
    /// Whether the ticket is sealed under another ticket's session key.
    pub is_skey: bool,
}

/// The owner of a cache, and the offset of its KDC's clock. The span is a place in the buffer of
/// the call.
#[repr(C)]
#[derive(Clone, Copy)]
pub struct Owner {
    /// The default principal, as text.
    pub name: Span,
    /// The type of its name.
    pub name_type: i32,
    /// The KDC's clock offset in seconds, or 0.
    pub offset_seconds: i32,
    /// And the microseconds after them.
    pub offset_micros: i32,
    /// Whether the cache has an offset.
    pub has_offset: bool,
}

/// What a request, and the answer to it, is wrapped in.
#[repr(C)]
#[derive(Clone, Copy)]
pub struct Wrapped {
    /// The mechanism by which the token names Kerberos: KERBEROS, WINDOWS or DRAFT.
    pub mechanism: u32,
    /// The mechanism that a negotiation (SPNEGO) names first; NONE if there is no negotiation;
    /// NAMED in a later token.
    pub negotiated: u32,
}

/// The service's side of a negotiation: all zero before its first token.
#[repr(C)]
#[derive(Clone, Copy)]
pub struct Negotiation {
    /// 0 before the first token, 1 if the client was asked for its token, 2 if it is over.
    pub stage: u32,
    /// In stage 1: the mechanism that the client named first; else NONE.
    pub asked: u32,
}

/// What a service says in a negotiation without a token of Kerberos.
#[repr(C)]
#[derive(Clone, Copy)]
pub struct Verdict {
    /// A fevstunik_says.
    pub says: u32,
    /// The mechanism that it names. COMPLETED names the negotiation's first one in the first answer
    /// to a client, and none later. INCOMPLETE names one, and REJECTED none: NONE.
    pub mechanism: u32,
}

/// What a KRB-ERROR says (RFC 4120, section 5.9.1). The spans are places in the buffer of the call.
#[repr(C)]
#[derive(Clone, Copy)]
pub struct KrbError {
    /// The service as text, such as host/web@EX.
    pub service: Span,
    /// The client as text, if the error has its name and realm.
    pub client: Span,
    /// A text for people, if any.
    pub text: Span,
    /// More about the error, if any.
    pub data: Span,
    /// The service's time.
    pub stime: Time,
    /// The client's time in the request, if any: the seconds, and the microseconds or 0.
    pub ctime: Time,
    /// What went wrong (RFC 4120, section 7.5.9).
    pub code: i32,
    /// The type of the service's name.
    pub service_type: i32,
    /// Whether there is a client.
    pub has_client: bool,
    /// Whether there is a text.
    pub has_text: bool,
    /// Whether there are data.
    pub has_data: bool,
    /// Whether there is the client's time.
    pub has_ctime: bool,
}

/// What a GSS-API client asks for. The spans are places in the buffer that the call was given.
#[repr(C)]
#[derive(Clone, Copy)]
pub struct Context {
    /// The MD5 hash of the channel's bindings: 16 bytes, zeros if there are none.
    pub bindings: Span,
    /// The credentials that it delegates, a KRB-CRED, if any.
    pub delegation: Span,
    /// What is after these, which isn't looked at.
    pub extensions: Span,
    /// 1 delegation, 2 mutual, 4 replay, 8 sequence, 16 confidentiality, 32 integrity.
    pub flags: u32,
    /// Whether it delegates credentials.
    pub has_delegation: bool,
}

/// What a GSS-API client asks for when it builds a request.
#[repr(C)]
#[derive(Clone, Copy)]
pub struct ContextChoice {
    /// 4 replay, 8 sequence, 16 confidentiality, 32 integrity; 1 (delegation) and 2 (mutual) don't
    /// count.
    pub flags: u32,
    /// The MD5 hash of the channel's bindings (RFC 4121, section 4.1.1.2), or zeros if there are
    /// none.
    pub bindings: [u8; 16],
}

/// What a service is made with. The fields after `limit_for_client` count for
/// fevstunik_service_answer alone. A size of 56, that of a struct without them, is valid too: they
/// are 0 then.
#[repr(C)]
#[derive(Clone, Copy)]
pub struct AcceptorOptions {
    /// Sizeof (fevstunik_acceptor_options).
    pub size: usize,
    /// With _RESTART_STARTED: the service's clock at this start; with _RESTART_SHARED: from when on
    /// the store remembers, and later by the difference of the skews if another service of these
    /// keys has a larger one, or had.
    pub started: Time,
    /// By how many seconds clocks may differ: up to 86,400; 300 is usual.
    pub skew: u32,
    /// A fevstunik_restart.
    pub restarts: u32,
    /// Whether each name of the keytab is served if no name is given.
    pub any_name: bool,
    /// Whether a start before the year 2020 is meant.
    pub any_start: bool,
    /// The most requests that it remembers; 0 stands for 1,000,000.
    pub limit: usize,
    /// The most of one client; 0 stands for a tenth of the limit, but at least 1.
    pub limit_for_client: usize,
    /// A fevstunik_bindings.
    pub bindings: u32,
    /// The encryption type of the subkey that a reply sends: 19, 20, or 0 for no subkey.
    pub subkey_type: u32,
    /// The MD5 hash of the channel's bindings (RFC 4121, section 4.1.1.2); not all zero, unless
    /// they are ignored.
    pub bindings_hash: [u8; 16],
    /// Whether anonymous clients are let in (RFC 8062).
    pub anonymous: bool,
    /// Whether only clients of the realms that fevstunik_acceptor_add_realm adds are let in.
    pub only_realms: bool,
}

/// What a request asks for. Nothing of it is sealed, so it proves nothing. The span is a place in
/// the buffer of the call.
#[repr(C)]
#[derive(Clone, Copy)]
pub struct Asked {
    /// The service that its ticket is for, as text, such as host/web@EX.
    pub service: Span,
    /// The encryption type that the ticket is sealed with.
    pub etype: i32,
    /// The version number of the key that it is sealed with, or 0.
    pub kvno: u32,
    /// The type of the service's name.
    pub service_type: i32,
    /// Whether the ticket has a version number.
    pub has_kvno: bool,
    /// Whether the client asks for a reply.
    pub wants_reply: bool,
}

/// What a service remembers, and how much it may.
#[repr(C)]
#[derive(Clone, Copy)]
pub struct Usage {
    /// How many requests are remembered.
    pub remembered: usize,
    /// The same, with those that are forgotten and aren't freed yet.
    pub held: usize,
    /// About how many bytes they take.
    pub bytes: usize,
    /// The most requests that it remembers.
    pub limit: usize,
    /// The most of one client.
    pub limit_for_client: usize,
    /// How many requests were answered with FEVSTUNIK_FULL.
    pub full: usize,
}

/// What both sides agreed on in a login, and how one of them writes and takes messages. A service
/// has the client's part from fevstunik_accepted_known and its own from its reply, a client has its
/// own from its request and the service's from fevstunik_finish.
#[repr(C)]
#[derive(Clone, Copy)]
pub struct MessageOptions {
    /// Which side this is: a fevstunik_role.
    pub role: u32,
    /// The encryption type of the session key: 19 or 20.
    pub session_type: i32,
    /// That of the client's subkey, or 0 if its request has none.
    pub client_subkey_type: i32,
    /// That of the service's subkey, or 0 if its reply has none.
    pub service_subkey_type: i32,
    /// The client's first sequence number, or 0 if its request has none.
    pub client_seq: u32,
    /// The service's first sequence number, or 0 if its reply has none; if there is no reply, MIT
    /// krb5 takes the client's.
    pub service_seq: u32,
    /// By how many bytes sealed messages are rotated (RRC): 0, as MIT krb5 writes them, or any
    /// other number.
    pub rotation: u16,
    /// Whether messages are taken in any order; otherwise only the next one is taken, and each
    /// other one refused.
    pub any_order: bool,
    /// Whether, with any order, repeats are taken too, and messages that are too old to tell: then
    /// look at each one's order.
    pub repeats: bool,
}

/// What is known of a message that was taken.
#[repr(C)]
#[derive(Clone, Copy)]
pub struct Received {
    /// Its sequence number.
    pub number: u64,
    /// The place of its text in the message; empty if the text isn't inside.
    pub text: Span,
    /// How it stands to those before it: a fevstunik_order.
    pub order: u32,
    /// Whether the text was encrypted.
    pub sealed: bool,
}
