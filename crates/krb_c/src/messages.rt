//! The messages of one side after a login: tokens that the other side checks and opens.

ghost use Rattle.std.specs.Prelude.{IfErr, IfOk, None, Some, false, pos, true, ◌≡◌, ◌≢◌, ◌⊎◌};
ghost use Rattle.std.specs.Option.{MatchOption};
ghost use Rattle.krb_c.specs.Answer.{plain};
ghost use Rattle.krb_c.specs.Choice.{IsChosen, IsKeyFault, key_value};
ghost use Rattle.krb_c.specs.Codes.{empty_handle, ok, out_of_memory};
ghost use Rattle.krb_enc.specs.Key.{IsUsable};
ghost use Rattle.krb_c.specs.Messages.{Begins, BeginsFor, BeginsIn, FindsMic, FindsWrap, IsRole, IsUnbegun, Limits, LimitsIn, SendsMic, StandsAt, TakesMic, TakesWrap, Unwraps, Verifies, Wraps, opened_as, options_for, options_of, order_number, receive_code, send_answer, verified_as};
ghost use Rattle.krb_context.specs.declared.role.Role.{Role as RoleValue};

use crate::accepted_state::AcceptedState;
use crate::code;
use crate::handle::{empty, put, with_held};
use crate::handles::{AcceptedHandle, MessagesHandle};
use crate::key::{block_of, bytes_of, key_of, key_or_none_of, type_of};
use crate::structs::{Answer, Choice, MessageOptions, Received, Span};
use krb_ap::Accepted;
use krb_context::{
    Agreed, Context, MessageFault, Opened, Options, Order, ReceiveFault, Role, SendFault, Verified,
};
use krb_enc::Key;
use std::alloc::Global;

/// Begins the messages of one side after a login (RFC 4121, section 2). What the handle held is freed.
/// If none begin, the handle is unchanged.
#[unsafe(no_mangle)]
pub extern "C" fn fevstunik_messages_new(
    messages: &mut MessagesHandle,
    alloc: Global,
    options: &MessageOptions,
    session_key: &[u8],
    client_subkey: &[u8],
    service_subkey: &[u8],
) -> Answer
    ensures { BeginsIn false options.now session_key.now client_subkey.now service_subkey.now messages.old.value messages.new.value result }
{
    let keys = Keys {
        session_key,
        client_subkey,
        service_subkey,
    };
    begin_in(messages, alloc, false, options, keys)
}

/// Begins the messages of one side after a login in which each side has sent its first message: the MIC
/// of the client's list of mechanisms (RFC 4178, section 5). What the handle held is freed. If none
/// begin, the handle is unchanged.
#[unsafe(no_mangle)]
pub extern "C" fn fevstunik_messages_after_list(
    messages: &mut MessagesHandle,
    alloc: Global,
    options: &MessageOptions,
    session_key: &[u8],
    client_subkey: &[u8],
    service_subkey: &[u8],
) -> Answer
    ensures { BeginsIn true options.now session_key.now client_subkey.now service_subkey.now messages.old.value messages.new.value result }
{
    let keys = Keys {
        session_key,
        client_subkey,
        service_subkey,
    };
    begin_in(messages, alloc, true, options, keys)
}

// The bytes of the keys that both sides may have agreed on. There is no `Debug`, so no log shows them.
#[derive(Clone, Copy)]
struct Keys<'a> {
    session_key: &'a [u8],
    client_subkey: &'a [u8],
    service_subkey: &'a [u8],
}

fn begin_in(
    messages: &mut MessagesHandle,
    alloc: Global,
    has_sent: bool,
    options: &MessageOptions,
    keys: Keys<'_>,
) -> Answer
    ensures { BeginsIn has_sent options.now keys.entry.session_key.now keys.entry.client_subkey.now keys.entry.service_subkey.now messages.old.value messages.new.value result }
{
    match options.begin(has_sent, keys) {
        Ok(context) => keep(messages, alloc, context),
        Err(answer) => answer,
    }
}

/// Begins a service's messages to a client that it has let in (RFC 4121, section 2), by what is known of the
/// request and what its reply has. If its list of mechanisms was checked, they go on after the MIC of the
/// list. What the handle held is freed. If none begin, it is unchanged.
#[unsafe(no_mangle)]
pub extern "C" fn fevstunik_messages_of_accepted(
    messages: &mut MessagesHandle,
    alloc: Global,
    accepted: &mut AcceptedHandle,
    choice: &Choice,
    subkey: &[u8],
    any_order: bool,
) -> Answer
    ensures begins { MatchOption accepted.old.value ((result ≡ plain empty_handle) × (messages.new.value ≡ messages.old.value))
        (λ kept. BeginsFor kept.accepted kept.has_sent choice.now subkey.now any_order messages.old.value messages.new.value result) }
    ensures stays { accepted.new.value ≡ accepted.old.value }
{
    with_held!(accepted, alloc, kept => begin_for(messages, alloc, &kept, choice, subkey, any_order))
}

fn begin_for(
    messages: &mut MessagesHandle,
    alloc: Global,
    kept: &AcceptedState,
    choice: &Choice,
    subkey: &[u8],
    any_order: bool,
) -> Answer
    ensures { BeginsFor kept.now.accepted kept.now.has_sent choice.now subkey.now any_order messages.old.value messages.new.value result }
{
    let Some(accepted) = &kept.accepted else {
        return Answer::plain(code::NOTHING_THERE);
    };
    let options = options_for(accepted, choice, any_order);
    let keys = Keys {
        session_key: accepted.session_key.bytes(),
        client_subkey: bytes_of(&accepted.subkey),
        service_subkey: subkey,
    };
    begin_in(messages, alloc, kept.has_sent, &options, keys)
}

fn options_for(accepted: &Accepted, choice: &Choice, any_order: bool) -> MessageOptions
    ensures { result ≡ options_for accepted.now choice.now any_order }
{
    let client_seq = accepted.seq.unwrap_or(0);
    let (service_subkey_type, service_seq) = if accepted.mutual {
        (choice.subkey_type, choice.seq().unwrap_or(0))
    } else {
        (0, client_seq)
    };
    MessageOptions {
        role: 2,
        session_type: accepted.session_key.etype(),
        client_subkey_type: type_of(&accepted.subkey),
        service_subkey_type,
        client_seq,
        service_seq,
        rotation: 0,
        any_order,
        repeats: false,
    }
}

#[inline(never)]
fn keep(messages: &mut MessagesHandle, alloc: Global, context: Context) -> Answer
    ensures { ((result ≡ plain ok) × (messages.new.value ≡ Some context)) ⊎ ((result ≡ plain out_of_memory) × (messages.new.value ≡ messages.old.value)) }
{
    let Ok(mut kept) = Box::new(alloc, context) else {
        return Answer::plain(code::OUT_OF_MEMORY);
    };
    if kept.prepare(alloc).is_err() {
        return Answer::plain(code::OUT_OF_MEMORY);
    }
    put(messages, kept);
    Answer::plain(code::OK)
}

impl MessageOptions {
    #[inline(never)]
    fn begin(&self, has_sent: bool, keys: Keys<'_>) -> Result<Context, Answer>
        ensures begins { IfOk result (Begins has_sent self.now keys.entry.session_key.now keys.entry.client_subkey.now keys.entry.service_subkey.now) }
        ensures fault { IfErr result (IsUnbegun self.now keys.entry.session_key.now keys.entry.client_subkey.now keys.entry.service_subkey.now) }
    {
        let Some(role) = role_of(self.role) else {
            return Err(Answer::plain(code::BAD_ROLE));
        };
        let agreed = Agreed {
            session_key: self.session_key(keys.session_key)?,
            initiator_subkey: self.client_subkey(keys.client_subkey)?,
            acceptor_subkey: self.service_subkey(keys.service_subkey)?,
            initiator_number: self.client_seq,
            acceptor_number: self.service_seq,
        };
        Ok(side_of(has_sent, role, &agreed, self.options()))
    }

    fn session_key(&self, bytes: &[u8]) -> Result<Key, Answer>
        ensures made { IfOk result (λ key. key ≡ key_value self.now.session_type bytes.now) }
        ensures usable { IfOk result IsUsable }
        ensures fault { IfErr result (λ answer. IsKeyFault self.now.session_type bytes.now answer) }
    {
        key_of(self.session_type, bytes)
    }

    fn client_subkey(&self, bytes: &[u8]) -> Result<Option<Key>, Answer>
        ensures chosen { IfOk result (λ key. IsChosen self.now.client_subkey_type bytes.now key) }
        ensures fault { IfErr result (λ answer. (self.now.client_subkey_type ≢ pos 0) × IsKeyFault self.now.client_subkey_type bytes.now answer) }
    {
        key_or_none_of(self.client_subkey_type, bytes)
    }

    fn service_subkey(&self, bytes: &[u8]) -> Result<Option<Key>, Answer>
        ensures chosen { IfOk result (λ key. IsChosen self.now.service_subkey_type bytes.now key) }
        ensures fault { IfErr result (λ answer. (self.now.service_subkey_type ≢ pos 0) × IsKeyFault self.now.service_subkey_type bytes.now answer) }
    {
        key_or_none_of(self.service_subkey_type, bytes)
    }

    fn options(&self) -> Options
        ensures { result ≡ options_of self.now }
    {
        Options {
            rotation: self.rotation,
            is_in_order: !self.any_order,
            refuses_repeats: !self.repeats,
        }
    }
}

// A side before its first message, or after that of each side.
fn side_of(has_sent: bool, role: Role, agreed: &Agreed, options: Options) -> Context
    ensures stands { StandsAt has_sent agreed.now role result }
    ensures options { result.options ≡ options }
{
    if has_sent {
        Context::after_first(role, agreed, options)
    } else {
        Context::new(role, agreed, options)
    }
}

fn role_of(number: u32) -> Option<Role>
    ensures { MatchOption result ((role : RoleValue) → ¬ IsRole number role) (IsRole number) }
{
    match number {
        1 => Some(Role::Initiator),
        2 => Some(Role::Acceptor),
        _ => None,
    }
}

/// Writes the MIC token of a text to the buffer, with this side's next number (RFC 4121, section
/// 4.2.6.1). It allocates no memory.
#[unsafe(no_mangle)]
pub extern "C" fn fevstunik_messages_mic(
    messages: &mut MessagesHandle,
    alloc: Global,
    text: &[u8],
    buffer: &mut [u8],
) -> Answer
    ensures { SendsMic text.now messages.old.value messages.new.value buffer.old buffer.new result }
{
    with_held!(messages, alloc, context => sent(context.mic_to(text, buffer)))
}

/// Writes the Wrap token of a text to the buffer, sealed or in plain, with this side's next number
/// (RFC 4121, section 4.2.6.2). The confounder is 16 random bytes, new for each call. It allocates no
/// memory.
#[unsafe(no_mangle)]
pub extern "C" fn fevstunik_messages_wrap(
    messages: &mut MessagesHandle,
    alloc: Global,
    sealed: bool,
    confounder: &[u8],
    text: &[u8],
    buffer: &mut [u8],
) -> Answer
    ensures { Wraps sealed confounder.now text.now messages.old.value messages.new.value buffer.old buffer.new result }
{
    let confounder = match block_of(confounder) {
        Ok(confounder) => confounder,
        Err(answer) => return answer,
    };
    with_held!(messages, alloc, context => sent(context.wrap_to(sealed, &confounder, text, buffer)))
}

fn sent(written: Result<usize, SendFault>) -> Answer
    ensures { result ≡ send_answer written }
{
    match written {
        Ok(size) => Answer::sized(code::OK, size),
        Err(SendFault::ShortSlice { needed }) => Answer::sized(code::SHORT_BUFFER, needed),
        Err(SendFault::NumbersUsedUp) => Answer::plain(code::NUMBERS_USED_UP),
    }
}

/// Returns how long a text may be so that its Wrap token has at most so many bytes (RFC 2743, section
/// 2.2.7). The handle is unchanged.
#[unsafe(no_mangle)]
pub extern "C" fn fevstunik_messages_limit(
    messages: &mut MessagesHandle,
    alloc: Global,
    sealed: bool,
    size: usize,
) -> Answer
    ensures limits { LimitsIn sealed size messages.old.value result }
    ensures stays { messages.new.value ≡ messages.old.value }
{
    with_held!(messages, alloc, context => limit(&context, sealed, size))
}

fn limit(context: &Context, sealed: bool, size: usize) -> Answer
    ensures { Limits sealed size context.now result }
{
    match context.wrap_size_limit(size, sealed) {
        Some(limit) => Answer::sized(code::OK, limit),
        None => Answer::plain(code::TOO_LONG),
    }
}

/// Checks that a token is the other side's MIC token of a text, and takes it (RFC 4121, section
/// 4.2.6.1). If it isn't taken, nothing changes. It allocates no memory.
#[unsafe(no_mangle)]
pub extern "C" fn fevstunik_messages_verify(
    messages: &mut MessagesHandle,
    alloc: Global,
    text: &[u8],
    token: &[u8],
    received: &mut Received,
) -> Answer
    ensures verifies { Verifies text.now token.now messages.old.value messages.new.value received.old received.new result }
    ensures found { FindsMic text.now token.now messages.old.value received.new result }
{
    with_held!(messages, alloc, context => verify(&mut context, text, token, received))
}

fn verify(context: &mut Context, text: &[u8], token: &[u8], received: &mut Received) -> Answer
    ensures takes { TakesMic text.now token.now context.old (Some context.new) received.old received.new result }
    ensures found { FindsMic text.now token.now (Some context.old) received.new result }
{
    match context.verify_mic(text, token) {
        Ok(it) => {
            *received = verified_as(it);
            Answer::plain(code::OK)
        }
        Err(fault) => Answer::plain(receive_code(fault)),
    }
}

/// Opens a Wrap token of the other side in place, and takes it (RFC 4121, section 4.2.6.2). If it isn't
/// taken, the handle and what is received are unchanged. It allocates no memory.
#[unsafe(no_mangle)]
pub extern "C" fn fevstunik_messages_unwrap(
    messages: &mut MessagesHandle,
    alloc: Global,
    token: &mut [u8],
    received: &mut Received,
) -> Answer
    ensures unwraps { Unwraps token.old token.new messages.old.value messages.new.value received.old received.new result }
    ensures found { FindsWrap token.old token.new messages.old.value received.new result }
{
    with_held!(messages, alloc, context => unwrap(&mut context, token, received))
}

fn unwrap(context: &mut Context, token: &mut [u8], received: &mut Received) -> Answer
    ensures takes { TakesWrap token.old token.new context.old (Some context.new) received.old received.new result }
    ensures found { FindsWrap token.old token.new (Some context.old) received.new result }
{
    match context.unwrap(token) {
        Ok(it) => {
            *received = opened_as(it);
            Answer::plain(code::OK)
        }
        Err(fault) => Answer::plain(receive_code(fault)),
    }
}

fn verified_as(it: Verified) -> Received
    ensures { result ≡ verified_as it }
{
    Received {
        number: it.number,
        text: Span { at: 0, size: 0 },
        order: order_number(it.order),
        sealed: false,
    }
}

fn opened_as(it: Opened) -> Received
    ensures { result ≡ opened_as it }
{
    Received {
        number: it.text.number,
        text: Span {
            at: it.text.start,
            size: it.text.len,
        },
        order: order_number(it.order),
        sealed: it.text.is_sealed,
    }
}

fn order_number(order: Order) -> u32
    ensures { result ≡ order_number order }
{
    match order {
        Order::Next => 0,
        Order::AfterGap => 1,
        Order::Late => 2,
        Order::Repeat => 3,
        Order::Old => 4,
    }
}

fn receive_code(fault: ReceiveFault) -> u32
    ensures { result ≡ receive_code fault }
{
    match fault {
        ReceiveFault::NotAccepted(MessageFault::Defective) => code::MESSAGE_DEFECTIVE,
        ReceiveFault::NotAccepted(MessageFault::Direction) => code::MESSAGE_DIRECTION,
        ReceiveFault::NotAccepted(MessageFault::OtherKey) => code::MESSAGE_OTHER_KEY,
        ReceiveFault::NotAccepted(MessageFault::Integrity) => code::MESSAGE_INTEGRITY,
        ReceiveFault::OutOfOrder(Order::Repeat) => code::MESSAGE_REPEAT,
        ReceiveFault::OutOfOrder(Order::Old) => code::MESSAGE_OLD,
        ReceiveFault::OutOfOrder(Order::AfterGap | Order::Late | Order::Next) => code::MESSAGE_GAP,
    }
}

/// Frees what the handle holds. The handle is empty then.
#[unsafe(no_mangle)]
pub extern "C" fn fevstunik_messages_free(messages: &mut MessagesHandle, alloc: Global)
    ensures { messages.new.value ≡ None }
{
    *messages = empty(alloc);
}
