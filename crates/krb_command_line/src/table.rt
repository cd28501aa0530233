// Made from commands.toml by `make generate`. Don't edit this file.

//! The commands, with their operands and options, and what help says of them.

use crate::arguments::Argument;
use crate::arguments::Kind::{Defaulted, Flag, Free, Needed, Operand, Optional, With, Without};
use crate::commands::Row;

pub(crate) const ABOUT: &str = "Kerberos 5 keytabs, credential caches and AP exchange";

pub(crate) const VERSION: &str = "0.2.0";

const KEYTAB_FILE: Argument<'static> = Argument {
    name: "FILE",
    kind: Operand,
    greatest: None,
    help: "The keytab",
};

const CCACHE: Argument<'static> = Argument {
    name: "FILE",
    kind: Operand,
    greatest: None,
    help: "The credential cache",
};

const KEYTAB: Argument<'static> = Argument {
    name: "KEYTAB",
    kind: Operand,
    greatest: None,
    help: "The keytab",
};

const SERVICE_KEYTAB: Argument<'static> = Argument {
    name: "KEYTAB",
    kind: Operand,
    greatest: None,
    help: "The service's keytab",
};

const FROM: Argument<'static> = Argument {
    name: "FROM",
    kind: Operand,
    greatest: None,
    help: "The keytab whose keys are added",
};

const CONVERTED: Argument<'static> = Argument {
    name: "OUT",
    kind: Operand,
    greatest: None,
    help: "The file to write. Without --replace it is emptied before FILE is read, and FILE itself is refused; a new file has mode 0600",
};

const SERVICE: Argument<'static> = Argument {
    name: "SERVICE",
    kind: Operand,
    greatest: None,
    help: "The service's name, such as host/web@EXAMPLE.COM",
};

const NAME: Argument<'static> = Argument {
    name: "NAME",
    kind: Operand,
    greatest: None,
    help: "The service's name, such as host/web@EXAMPLE.COM",
};

const ETYPE: Argument<'static> = Argument {
    name: "ETYPE",
    kind: Operand,
    greatest: None,
    help: "The encryption type that the ticket is sealed with, by its number or its name, such as 20 or aes256-cts-hmac-sha384-192",
};

const INDEX: Argument<'static> = Argument {
    name: "INDEX",
    kind: Operand,
    greatest: Some(4_294_967_295),
    help: "Which entry to remove, in the order of list-keytab: 0 is the first",
};

const MESSAGE: Argument<'static> = Argument {
    name: "MESSAGE",
    kind: Optional,
    greatest: None,
    help: "The message in hexadecimal or base64, or the header line that has it, such as 'Authorization: Negotiate ..'; read from standard input if it and --file are left out",
};

const NOW: Argument<'static> = Argument {
    name: "now",
    kind: With("readable"),
    greatest: Some(253_402_300_799),
    help: "Marks the tickets that ended before this time, in seconds since 1970-01-01: 0 to 253402300799. Needs --readable",
};

const TIME: Argument<'static> = Argument {
    name: "time",
    kind: Needed,
    greatest: Some(253_402_300_799),
    help: "The request's time by the client's clock, in seconds since 1970-01-01: 0 to 253402300799",
};

const USEC: Argument<'static> = Argument {
    name: "usec",
    kind: Needed,
    greatest: Some(999_999),
    help: "The microseconds of that second: 0 to 999999",
};

const CONFOUNDER: Argument<'static> = Argument {
    name: "confounder",
    kind: Needed,
    greatest: None,
    help: "16 random bytes, new for each request, as 32 hexadecimal digits",
};

const REPLY: Argument<'static> = Argument {
    name: "reply",
    kind: Needed,
    greatest: None,
    help: "The service's reply, in hexadecimal",
};

const SKEW: Argument<'static> = Argument {
    name: "skew",
    kind: Defaulted("300"),
    greatest: Some(86_400),
    help: "By how many seconds clocks may differ: 0 to 86400",
};

const KVNO: Argument<'static> = Argument {
    name: "kvno",
    kind: Free,
    greatest: Some(4_294_967_295),
    help: "The version number of the key that the ticket is sealed with (0 to 4294967295); the highest one if left out",
};

const MESSAGE_FILE: Argument<'static> = Argument {
    name: "file",
    kind: Without("MESSAGE"),
    greatest: None,
    help: "Reads the message from this file, as text. It can't be given beside MESSAGE",
};

const EXPLAIN_KEYTAB: Argument<'static> = Argument {
    name: "keytab",
    kind: Free,
    greatest: None,
    help: "Looks at a request as a service with this keytab does: what the ticket and the authenticator say, and why it is refused",
};

const AT: Argument<'static> = Argument {
    name: "at",
    kind: With("keytab"),
    greatest: Some(253_402_300_799),
    help: "When the request arrives by the service's clock, in seconds since 1970-01-01: 0 to 253402300799; the machine's clock if left out. Needs --keytab",
};

const OUT: Argument<'static> = Argument {
    name: "out",
    kind: Free,
    greatest: None,
    help: "The file to write, in place of KEYTAB; a new file has mode 0600",
};

const TOKEN: Argument<'static> = Argument {
    name: "token",
    kind: Free,
    greatest: None,
    help: "Prints a token that holds the request: gss or spnego",
};

const STARTED: Argument<'static> = Argument {
    name: "started",
    kind: Free,
    greatest: Some(253_402_300_799),
    help: "When the service was started again, in seconds since 1970-01-01 (0 to 253402300799), rounded up. Requests are refused as 'JustStarted' until its clock and the client's are both later than this by more than the skew. Omit it only if every key in the keytab is new: otherwise recorded logins can be replayed",
};

const ERRORS: Argument<'static> = Argument {
    name: "service",
    kind: Free,
    greatest: None,
    help: "The service's name for the KRB-ERRORs that answer refused requests; without it, none are printed. It doesn't affect which requests are accepted (see --only)",
};

const ONLY: Argument<'static> = Argument {
    name: "only",
    kind: Free,
    greatest: None,
    help: "The one name for which requests are accepted; those for other names of the keytab are refused as 'NotUs'",
};

const READABLE: Argument<'static> = Argument {
    name: "readable",
    kind: Flag,
    greatest: None,
    help: "Prints a table for people, with names in place of numbers and times in UTC",
};

const WANTS_REPLY: Argument<'static> = Argument {
    name: "mutual",
    kind: Flag,
    greatest: None,
    help: "Asks the service for a reply",
};

const REPLACE: Argument<'static> = Argument {
    name: "replace",
    kind: Flag,
    greatest: None,
    help: "Writes a new file, and renames it to OUT once it is whole: OUT may be FILE, and is never left half written",
};

const TOKENS: Argument<'static> = Argument {
    name: "tokens",
    kind: Flag,
    greatest: None,
    help: "Takes tokens of GSS-API or SPNEGO in place of requests, and answers with tokens",
};

/// The commands of files.
pub(crate) static FILE_COMMANDS: [Row<'static>; 9] = [
    Row {
        name: "list-keytab",
        about: "Lists a keytab: key version number, encryption type, timestamp and principal of each entry",
        arguments: &[READABLE, KEYTAB_FILE],
        end: "Prints a line for each entry, in file order: 'KVNO ENCTYPE TIMESTAMP PRINCIPAL'. The timestamp is in seconds since 1970-01-01. With --readable, a row names the columns, and then each entry has a row.\n\nExit status: 0 success; 1 the file is faulty; 2 the command line is wrong; 3 a file or standard stream can't be opened, read or written, or memory ran out",
    },
    Row {
        name: "list-ccache",
        about: "Lists a credential cache: its principal, clock offset, configuration entries and tickets",
        arguments: &[READABLE, NOW, CCACHE],
        end: "Prints these lines, tickets and configuration entries in file order:\n  default PRINCIPAL\n  offset SECONDS MICROSECONDS\n  config PRINCIPAL\n  ticket ENCTYPE AUTHTIME STARTTIME ENDTIME RENEW-TILL FLAGS CLIENT SERVER\nThe encryption type is that of the session key. Times are in seconds since 1970-01-01, 0 if absent; flags are 8 hexadecimal digits. With --readable, flags are the letters of MIT krb5's klist, '-' stands for a time or flags that a ticket doesn't have, and a ticket that ended before --now is 'expired'.\n\nExit status: 0 success; 1 the file is faulty; 2 the command line is wrong; 3 a file or standard stream can't be opened, read or written, or memory ran out",
    },
    Row {
        name: "check-keytab",
        about: "Checks a keytab, and prints how many entries it has, or where the fault is",
        arguments: &[KEYTAB_FILE],
        end: "Prints 'ok COUNT', or on standard error the fault, with its offset in bytes if it has one.\n\nExit status: 0 success; 1 the file is faulty; 2 the command line is wrong; 3 a file or standard stream can't be opened, read or written, or memory ran out",
    },
    Row {
        name: "check-ccache",
        about: "Checks a credential cache, and prints how many credentials it has, or where the fault is",
        arguments: &[CCACHE],
        end: "Prints 'ok COUNT', or on standard error the fault, with its offset in bytes if it has one.\n\nExit status: 0 success; 1 the file is faulty; 2 the command line is wrong; 3 a file or standard stream can't be opened, read or written, or memory ran out",
    },
    Row {
        name: "convert-keytab",
        about: "Writes a copy of a keytab, without the holes that removed entries left, and without what follows a record length of 0",
        arguments: &[KEYTAB_FILE, CONVERTED, REPLACE],
        end: "Prints 'wrote COUNT', the number of bytes.\n\nExit status: 0 success; 1 the file is faulty; 2 the command line is wrong; 3 a file or standard stream can't be opened, read or written, or memory ran out",
    },
    Row {
        name: "convert-ccache",
        about: "Writes a copy of a credential cache, in version 0x0504",
        arguments: &[CCACHE, CONVERTED, REPLACE],
        end: "Prints 'wrote COUNT', the number of bytes.\n\nExit status: 0 success; 1 the file is faulty; 2 the command line is wrong; 3 a file or standard stream can't be opened, read or written, or memory ran out",
    },
    Row {
        name: "pick-key",
        about: "Prints the entry of a keytab whose key would open a ticket",
        arguments: &[KEYTAB, NAME, ETYPE, KVNO],
        end: "Prints the entry's line: 'KVNO ENCTYPE TIMESTAMP PRINCIPAL'. If no entry is picked, the fault says why: NoName, NoKey or NoVersion. An entry of another type than 19 and 20 is picked by the same rule; its line is printed, and then the fault UnusableType, since no ticket can be opened with its key.\n\nExit status: 0 success; 1 the file is faulty, no entry is picked, or its type isn't usable; 2 the command line is wrong; 3 a file or standard stream can't be opened, read or written, or memory ran out",
    },
    Row {
        name: "remove-key",
        about: "Removes an entry from a keytab, and leaves a hole in its place",
        arguments: &[KEYTAB, INDEX, OUT],
        end: "Prints 'wrote COUNT', the number of bytes. The hole has only zero bytes, and all other bytes stay the same. If there is no such entry, the fault is NoSuchEntry.\n\nExit status: 0 success; 1 the file is faulty, or has no such entry; 2 the command line is wrong; 3 a file or standard stream can't be opened, read or written, or memory ran out",
    },
    Row {
        name: "add-keys",
        about: "Adds to a keytab the keys of another that it doesn't have yet",
        arguments: &[KEYTAB, FROM, OUT],
        end: "Prints 'wrote COUNT', the number of bytes. A key of FROM is left out if KEYTAB has its name, encryption type, version number and bytes already. Each other key goes into the first hole that is long enough; if there is none, it comes last.\n\nExit status: 0 success; 1 one of the files is faulty; 2 the command line is wrong; 3 a file or standard stream can't be opened, read or written, or memory ran out",
    },
];

/// The commands of messages.
pub(crate) static MESSAGE_COMMANDS: [Row<'static>; 4] = [
    Row {
        name: "request",
        about: "Builds a request for a service with a ticket of a credential cache, and prints it in hexadecimal",
        arguments: &[CCACHE, SERVICE, TIME, USEC, CONFOUNDER, WANTS_REPLY, TOKEN],
        end: "Prints one line of hexadecimal digits. Never use a moment (--time and --usec) twice for the same client and service, even with another ticket.\n\nExit status: 0 success; 1 the file is faulty, or no request can be built; 2 the command line is wrong; 3 a file or standard stream can't be opened, read or written, or memory ran out",
    },
    Row {
        name: "accept",
        about: "Acts as a service: reads lines SECONDS MICROS HEX [CONFOUNDER] and says for each whether the request is accepted",
        arguments: &[SERVICE_KEYTAB, SKEW, STARTED, ERRORS, ONLY, TOKENS],
        end: "A line of standard input has the service's clock (seconds since 1970-01-01, and microseconds), the request in hexadecimal ('-' for no bytes), and, if you want replies, a confounder: 16 random bytes as 32 hexadecimal digits. Its answer is one of these lines:\n  accepted CLIENT ENCTYPE SECONDS MICROS plain|mutual [reply HEX]\n  refused CODE NAME [error HEX]\n  refused none OutOfMemory\n  bad token FAULT at OFFSET (with --tokens)\n  bad line\nEach run remembers only its own requests.\n\nExit status: 0 success; 1 the keytab is faulty, a request is refused, or a token or a line is bad; 2 the command line is wrong; 3 a file or standard stream can't be opened, read or written, or memory ran out",
    },
    Row {
        name: "finish",
        about: "Reads the reply to a request that was built with a credential cache, and says what client and service agree on",
        arguments: &[CCACHE, SERVICE, TIME, USEC, REPLY],
        end: "The request must have been built with --mutual, and with the same cache, service and moment. Prints one line: 'agreed CLIENT ENCTYPE [seq N] [subkey ENCTYPE]', the encryption types of the session key and of the service's key.\n\nExit status: 0 success; 1 the file is faulty, no request can be built, or the reply is refused; 2 the command line is wrong; 3 a file or standard stream can't be opened, read or written, or memory ran out",
    },
    Row {
        name: "explain",
        about: "Says what is in a message or a token, for people",
        arguments: &[MESSAGE, MESSAGE_FILE, EXPLAIN_KEYTAB, AT, SKEW, ONLY],
        end: "Prints a page, also of bytes that are no message: its lines say which token, request, reply or error they are, and what it has that isn't encrypted: names, options, encryption types, version numbers, sizes, times, an error's code and text. Without --keytab, the message isn't checked, and no key is used.\nWith --keytab, more lines say which entry of the keytab is picked, or why none is; what the ticket and the authenticator say, as far as they open; and the first cause for which a service refuses the request that has seen nothing before, and those that would follow, each with what to look at. --skew is by how much clocks may differ, and --only is the name of a service that takes no other. Without --keytab, neither is used. A service that takes no tokens refuses one as 'MessageType': the request inside is looked at.\n\nExit status: 0 success; 1 the text doesn't spell bytes, or it is too long; or the keytab is faulty; 2 the command line is wrong; 3 a file or standard stream can't be opened, read or written, or memory ran out",
    },
];

/// The names of all commands.
pub(crate) static NAMES: [&str; 13] = [
    "list-keytab",
    "list-ccache",
    "check-keytab",
    "check-ccache",
    "convert-keytab",
    "convert-ccache",
    "pick-key",
    "remove-key",
    "add-keys",
    "request",
    "accept",
    "finish",
    "explain",
];
