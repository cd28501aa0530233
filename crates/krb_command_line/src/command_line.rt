// Made from commands.toml by `make generate`. Don't edit this file.

//! The commands, with the words that they are asked for by.

/// What a command line asks for.
#[derive(Clone, Copy)]
pub enum Command<'a> {
    /// `list-keytab [--readable] FILE`: lists a keytab: key version number, encryption type,
    /// timestamp and principal of each entry.
    ListKeytab {
        /// `--readable`: Prints a table for people, with names in place of numbers and times in
        /// UTC.
        readable: bool,
        /// `FILE`: The keytab.
        file: &'a str,
    },
    /// `list-ccache [--readable [--now SECONDS]] FILE`: lists a credential cache: its principal,
    /// clock offset, configuration entries and tickets.
    ListCcache {
        /// How `list-ccache` lists a cache.
        form: CacheForm<'a>,
        /// `FILE`: The credential cache.
        file: &'a str,
    },
    /// `check-keytab FILE`: checks a keytab, and prints how many entries it has, or where the fault
    /// is.
    CheckKeytab {
        /// `FILE`: The keytab.
        file: &'a str,
    },
    /// `check-ccache FILE`: checks a credential cache, and prints how many credentials it has, or
    /// where the fault is.
    CheckCcache {
        /// `FILE`: The credential cache.
        file: &'a str,
    },
    /// `convert-keytab FILE OUT [--replace]`: writes a copy of a keytab, without the holes that
    /// removed entries left, and without what follows a record length of 0.
    ConvertKeytab {
        /// `FILE`: The keytab.
        file: &'a str,
        /// `OUT`: The file to write. Without --replace it is emptied before FILE is read, and FILE
        /// itself is refused; a new file has mode 0600.
        out: &'a str,
        /// `--replace`: Writes a new file, and renames it to OUT once it is whole: OUT may be FILE,
        /// and is never left half written.
        replace: bool,
    },
    /// `convert-ccache FILE OUT [--replace]`: writes a copy of a credential cache, in version
    /// 0x0504.
    ConvertCcache {
        /// `FILE`: The credential cache.
        file: &'a str,
        /// `OUT`: The file to write. Without --replace it is emptied before FILE is read, and FILE
        /// itself is refused; a new file has mode 0600.
        out: &'a str,
        /// `--replace`: Writes a new file, and renames it to OUT once it is whole: OUT may be FILE,
        /// and is never left half written.
        replace: bool,
    },
    /// `pick-key KEYTAB NAME ETYPE [--kvno NUMBER]`: prints the entry of a keytab whose key would
    /// open a ticket.
    PickKey(PickWords<'a>),
    /// `remove-key KEYTAB INDEX [--out OUT]`: removes an entry from a keytab, and leaves a hole in
    /// its place.
    RemoveKey(RemoveWords<'a>),
    /// `add-keys KEYTAB FROM [--out OUT]`: adds to a keytab the keys of another that it doesn't
    /// have yet.
    AddKeys(AddWords<'a>),
    /// `request FILE SERVICE --time SECONDS --usec MICROSECONDS --confounder HEX [--mutual] [--token KIND]`:
    /// builds a request for a service with a ticket of a credential cache, and prints it in
    /// hexadecimal.
    Request(RequestWords<'a>),
    /// `accept KEYTAB [--skew SECONDS] [--started SECONDS] [--service NAME] [--only NAME] [--tokens]`:
    /// acts as a service: reads lines SECONDS MICROS HEX [CONFOUNDER] and says for each whether the
    /// request is accepted.
    Accept(AcceptWords<'a>),
    /// `finish FILE SERVICE --time SECONDS --usec MICROSECONDS --reply HEX`: reads the reply to a
    /// request that was built with a credential cache, and says what client and service agree on.
    Finish(FinishWords<'a>),
    /// `explain [MESSAGE] [--file FILE] [--keytab FILE [--at SECONDS]] [--skew SECONDS] [--only NAME]`:
    /// says what is in a message or a token, for people.
    Explain(ExplainWords<'a>),
}

/// How `list-ccache` lists a cache.
#[derive(Clone, Copy)]
pub enum CacheForm<'a> {
    /// In lines for programs.
    Lines,
    /// As a table for people.
    Table {
        /// `--now SECONDS`: Marks the tickets that ended before this time, in seconds since
        /// 1970-01-01: 0 to 253402300799. Needs --readable.
        now: Option<&'a str>,
    },
}

/// The words of `accept`.
#[derive(Clone, Copy)]
pub struct AcceptWords<'a> {
    /// `KEYTAB`: The service's keytab.
    pub keytab: &'a str,
    /// `--skew SECONDS`: By how many seconds clocks may differ: 0 to 86400.
    pub skew: &'a str,
    /// `--started SECONDS`: When the service was started again, in seconds since 1970-01-01 (0 to
    /// 253402300799), rounded up. Requests are refused as `JustStarted` until its clock and the
    /// client's are both later than this by more than the skew. Omit it only if every key in the
    /// keytab is new: otherwise recorded logins can be replayed.
    pub started: Option<&'a str>,
    /// `--service NAME`: The service's name for the KRB-ERRORs that answer refused requests;
    /// without it, none are printed. It doesn't affect which requests are accepted (see --only).
    pub service: Option<&'a str>,
    /// `--only NAME`: The one name for which requests are accepted; those for other names of the
    /// keytab are refused as `NotUs`.
    pub only: Option<&'a str>,
    /// `--tokens`: Takes tokens of GSS-API or SPNEGO in place of requests, and answers with tokens.
    pub tokens: bool,
}

/// The words of `add-keys`.
#[derive(Clone, Copy)]
pub struct AddWords<'a> {
    /// `KEYTAB`: The keytab.
    pub keytab: &'a str,
    /// `FROM`: The keytab whose keys are added.
    pub from: &'a str,
    /// `--out OUT`: The file to write, in place of KEYTAB; a new file has mode 0600.
    pub out: Option<&'a str>,
}

/// The words of `explain`.
#[derive(Clone, Copy)]
pub struct ExplainWords<'a> {
    /// `MESSAGE`: The message in hexadecimal or base64, or the header line that has it, such as
    /// 'Authorization: Negotiate ..'; read from standard input if it and --file are left out.
    pub message: Option<&'a str>,
    /// `--file FILE`: Reads the message from this file, as text. It can't be given beside MESSAGE.
    pub file: Option<&'a str>,
    /// `--keytab FILE`: Looks at a request as a service with this keytab does: what the ticket and
    /// the authenticator say, and why it is refused.
    pub keytab: Option<&'a str>,
    /// `--at SECONDS`: When the request arrives by the service's clock, in seconds since
    /// 1970-01-01: 0 to 253402300799; the machine's clock if left out. Needs --keytab.
    pub at: Option<&'a str>,
    /// `--skew SECONDS`: By how many seconds clocks may differ: 0 to 86400.
    pub skew: &'a str,
    /// `--only NAME`: The one name for which requests are accepted; those for other names of the
    /// keytab are refused as `NotUs`.
    pub only: Option<&'a str>,
}

/// The words of `finish`.
#[derive(Clone, Copy)]
pub struct FinishWords<'a> {
    /// `FILE`: The credential cache.
    pub file: &'a str,
    /// `SERVICE`: The service's name, such as host/web@EXAMPLE.COM.
    pub service: &'a str,
    /// `--time SECONDS`: The request's time by the client's clock, in seconds since 1970-01-01: 0
    /// to 253402300799.
    pub time: &'a str,
    /// `--usec MICROSECONDS`: The microseconds of that second: 0 to 999999.
    pub usec: &'a str,
    /// `--reply HEX`: The service's reply, in hexadecimal.
    pub reply: &'a str,
}

/// The words of `pick-key`.
#[derive(Clone, Copy)]
pub struct PickWords<'a> {
    /// `KEYTAB`: The keytab.
    pub keytab: &'a str,
    /// `NAME`: The service's name, such as host/web@EXAMPLE.COM.
    pub name: &'a str,
    /// `ETYPE`: The encryption type that the ticket is sealed with, by its number or its name, such
    /// as 20 or aes256-cts-hmac-sha384-192.
    pub etype: &'a str,
    /// `--kvno NUMBER`: The version number of the key that the ticket is sealed with (0 to
    /// 4294967295); the highest one if left out.
    pub kvno: Option<&'a str>,
}

/// The words of `remove-key`.
#[derive(Clone, Copy)]
pub struct RemoveWords<'a> {
    /// `KEYTAB`: The keytab.
    pub keytab: &'a str,
    /// `INDEX`: Which entry to remove, in the order of list-keytab: 0 is the first. In decimal: 0
    /// to 4294967295.
    pub index: &'a str,
    /// `--out OUT`: The file to write, in place of KEYTAB; a new file has mode 0600.
    pub out: Option<&'a str>,
}

/// The words of `request`.
#[derive(Clone, Copy)]
pub struct RequestWords<'a> {
    /// `FILE`: The credential cache.
    pub file: &'a str,
    /// `SERVICE`: The service's name, such as host/web@EXAMPLE.COM.
    pub service: &'a str,
    /// `--time SECONDS`: The request's time by the client's clock, in seconds since 1970-01-01: 0
    /// to 253402300799.
    pub time: &'a str,
    /// `--usec MICROSECONDS`: The microseconds of that second: 0 to 999999.
    pub usec: &'a str,
    /// `--confounder HEX`: 16 random bytes, new for each request, as 32 hexadecimal digits.
    pub confounder: &'a str,
    /// `--mutual`: Asks the service for a reply.
    pub mutual: bool,
    /// `--token KIND`: Prints a token that holds the request: gss or spnego.
    pub token: Option<&'a str>,
}
