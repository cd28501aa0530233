//! The library for C: the exchange, sealed texts and checksums as functions that C calls
//! (`include/fevstunik.h`).
//!
//! Each export calls a proved function of the other crates, and states its clauses again for the
//! arguments that C passes: numbers, slices and structs of numbers. None has a condition that C
//! could break, except what the header says of pointers and handles. It returns an
//! [`Answer`](structs::Answer): a code, and what belongs to it. `specs/Answer` and `specs/Codes` say
//! which code reports which fault.
//!
//! `interface.toml` has the interface. The header is made of it, and so are the modules
//! [`code`](code), [`cause`](cause), [`handles`](handles), [`sizes`](sizes), [`structs`](structs) and
//! [`version`](version).
//!
//! What outlives a call is kept in a [`Handle`](handle::Handle): one pointer that is null while the
//! handle is empty. There is one type of handle for each kind of thing: a service, an accepted
//! request, a login, a keytab, a credential cache, a request whose reply is awaited, and the messages
//! after a login. A call takes the value out of the handle and puts it back.
//!
//! `specs/Options` says what a service is made with, `specs/Sizes` what options of an older header
//! stand for, `specs/Login` what a service answers to a client in one call, `specs/Store` what a store
//! of stamps is asked before that, `specs/Bindings` which channel bindings it asks for, and
//! `specs/Service` how a call changes a service and what it accepted. `specs/Known` says what is
//! returned of an accepted request, `specs/Items` what of its lists, and `specs/Choice` what a side
//! chooses. `specs/Request` and `specs/Reply` say what becomes of a client's request and of the reply
//! to it, and `specs/Messages` what both sides send after it. `specs/Refusal` says which error reports
//! a refusal, `specs/Entries` what is returned of the entries of files, and `specs/KeytabFile` what a
//! changed keytab is.
//!
//! ```c
//! fevstunik_acceptor service = FEVSTUNIK_ACCEPTOR_INIT;
//! fevstunik_login login = FEVSTUNIK_LOGIN_INIT;
//! fevstunik_acceptor_options options = {.size = sizeof options, .started = start, .skew = 300, .restarts = FEVSTUNIK_RESTART_STARTED};
//! fevstunik_acceptor_new(&service, keytab, keytab_size, name, name_size, &options);
//! if (fevstunik_service_answer(&service, &login, input, input_size, &now, random, 16, out, sizeof out).code == FEVSTUNIK_OK)
//!     fevstunik_accepted_known(&login.accepted, &known, buffer, sizeof buffer);
//! fevstunik_login_free(&login);
//! fevstunik_acceptor_free(&service);
//! ```
#![tactic(auto)]

mod accepted;
mod accepted_state;
mod answer;
mod bindings;
mod bindings_hash;
mod cache;
mod cause;
mod choice;
mod code;
mod context;
mod error;
mod handle;
mod handles;
mod key;
mod keytab;
mod keytab_file;
mod krb_error;
mod list;
mod login;
mod login_state;
mod messages;
mod name;
mod negotiation;
mod pending;
mod place;
mod question;
mod raw_box;
mod request;
mod service;
mod service_options;
mod service_state;
mod sizes;
mod stamp;
mod structs;
mod text;
mod token;
mod version;
