//! Makes the calls of the exchange, and of the memory of what was seen, that the lines of standard input say, for the tests
//! (tests/support/calls.py): those that the library for C doesn't make (tests/support/exchange_in_c.py has the others).
//!
//! One line is answered for each: what the call gave, or `bad line` if it can't be read. Single spaces stand between words; `new` drops
//! what earlier lines made. BYTES are hexadecimal digits, `-` for none, `HEX*N` for HEX N times, several such joined by `+`; more than
//! 1,024 bytes are shown as `#LENGTH:SHA256`. A NAME is `TYPE/REALM/COMPONENTS`: of BYTES, the components joined by `,`, or `.` for none.
//! TIME is two words, seconds from 1970-01-01T00:00:00Z on and microseconds. What there isn't is shown as `none`.
//!
//! ```text
//! service list|timed SKEW BYTES [TIME]  a service over this keytab, with a new memory, which was started again at that time: `service`
//! accept TIME BYTES                     what it answers to a request: `refused CAUSE [FAULT]`, or `accepted` and the bytes of the tuple
//! serve [TIME BYTES ..]                 the same of a list of calls, with `|` between
//! keytab BYTES                          the service gets this keytab: `keytab`
//! held                                  how many tuples its memory has, and the latest moment
//! share new|known|failed TIME TIME BYTES    what it decides of the bytes of a client, at the second time, with a store that says this, and a
//!                                       clock that shows the first time after that: `in`, `on` or `refused TEXT`, and what goes back
//! talk TIME BYTES ..                    what it decides of each message of a client that may name another mechanism first: `in`, `shown` (its
//!                                       list of mechanisms), `on`, `refused` or `unshown`, and what goes back
//! memory list|timed|limited [LIMIT LIMIT]   a new memory; one with limits has one for all clients, and one for each
//! remember|contains NAME NAME TIME      of the tuple of this server, client and time
//! advance|expect TIME SKEW, len, latest
//! at-least COUNT TIME, at-least-of COUNT TIME NAME NAME TIME    whether there are so many since a time; of a tuple's client
//! taken, bytes                          of the memory `timed`: how many tuples it holds, and in about how many bytes
//! limits, refused, full NAME NAME TIME  of the memory `limited`
//! tuple time NAME NAME TIME             the tuple's time
//! tuple compare NAME NAME TIME NAME NAME TIME
//! tuple bytes NAME NAME TIME            the tuple's bytes
//! tuple until NAME NAME TIME SKEW       until when a shared store keeps the tuple, or `none`
//! skew SECONDS                          its microseconds, or `none`
//! text cause|breach INDEX               place, code, name and text of a cause or a breach, counted from 0
//! text request|finish|reply INDEX       the text of why there is no request, no agreement or no error
//! tally [CALL ..]                       calls of an empty tally of times: `add N`, `remove N`, `pop`, `has N`, `since N`, `first`, `last`, `len`
//! times N [CALL ..]                     calls of the times of one owner, of which N is the first: `add N`, `remove N`, `since N`, `len`
//! laws                                  calls the laws, which do nothing
//! ```
#![tactic(auto)]

mod cause_list;
mod memories;
mod names;
mod services;
mod talks;
mod tallies;
mod texts;

use krb_words::{Answer, Calls, Words, answer_lines};
use memories::Memory;
use services::Served;
use std::alloc::Global;
use std::process::ExitCode;

/// What earlier lines made.
#[derive(Drop)]
struct Kept {
    served: Option<Served>,
    memory: Option<Memory>,
}

fn main(rt: HostRuntime) -> ExitCode {
    answer_lines::<Kept>(&rt)
}

impl Calls for Kept {
    fn new(_alloc: Global) -> Kept {
        Kept {
            served: None,
            memory: None,
        }
    }

    fn call(&mut self, words: &mut Words, out: &mut Answer) -> Option<()> {
        let first = words.next()?;
        match first {
            "service" => services::renew(&mut self.served, words, out),
            "accept" | "serve" | "keytab" | "held" | "share" | "talk" => {
                services::answer(self.served.as_mut()?, first, words, out)
            }
            "text" => texts::answer(words, out),
            "tally" => tallies::tally(words, out),
            "times" => tallies::times(words, out),
            "laws" => laws(out),
            _ => memories::answer(&mut self.memory, first, words, out),
        }
    }
}

fn laws(out: &mut Answer) -> Option<()> {
    krb_ap::laws::one_answer();
    krb_ap::laws::refused_is_remembered();
    krb_ap::laws::built_is_accepted();
    krb_ap::laws::built_or_prevented();
    krb_ap::laws::agreed_or_refused();
    krb_ap::laws::no_stamp_twice();
    krb_ap::laws::no_stamp_twice_in_a_life();
    krb_ap::laws::accepted_has_its_stamp();
    krb_ap::laws::a_store_lets_in_once();
    krb_ap::laws::built_is_let_in();
    krb_ap::laws::both_agree();
    krb_login::laws::only_by_right();
    krb_login::laws::answers_that();
    krb_login::laws::shows_what_is_open();
    krb_login::laws::completed_if_let_in();
    krb_talk::laws::let_in_only_over_its_list();
    krb_talk::laws::both_have_sent_their_mics();
    krb_talk::laws::a_list_is_never_passed_over();
    krb_talk::laws::few_messages();
    krb_talk::laws::turns_are_talks();
    krb_talk::laws::no_second_decision();
    krb_replay::laws::a_set_has_one_size();
    krb_replay::laws::bytes_are_the_stamps();
    out.word("laws")
}
