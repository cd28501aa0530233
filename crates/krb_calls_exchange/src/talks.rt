//! Logins of clients that name another mechanism before Kerberos.

use crate::services::{all_given, given_of, show_sent};
use krb_context::Options;
use krb_login::Service;
use krb_replay::ReplayMemory;
use krb_talk::{Decision, Talk};
use krb_words::{Answer, Words};

// Tokens are taken in their order, and once.
const OPTIONS: Options = Options {
    rotation: 0,
    is_in_order: true,
    refuses_repeats: true,
};

/// Shows what is decided of each message of one client.
pub(crate) fn talk<M: ReplayMemory>(
    service: &mut Service<M>,
    words: &mut Words,
    out: &mut Answer,
) -> Option<()> {
    let messages = all_given(words)?;
    let mut talk = Talk::new(OPTIONS);
    for (now, bytes) in &messages {
        show(
            &talk.answer(words.alloc, service, given_of(*now, bytes)),
            out,
        );
    }
    Some(())
}

fn show(decision: &Decision, out: &mut Answer) -> Option<()> {
    match decision {
        Decision::LetIn(login) => {
            out.word("in");
            show_sent(&login.answer, out)
        }
        Decision::Shown(login) => {
            out.word("shown");
            show_sent(&login.answer, out)
        }
        Decision::GoOn(bytes) => {
            out.word("on");
            out.bytes(bytes)
        }
        Decision::Refused(refused) => {
            out.word("refused");
            show_sent(&refused.answer, out)
        }
        Decision::Unshown(unshown) => {
            out.word("unshown");
            show_sent(&unshown.answer, out)
        }
    }
}
