//! Laws over the definitions, for all keys, texts and numbers. Each function has an empty body: its
//! contract is the law.

ghost use Rattle.std.specs.Prelude.{◌≡◌, ◌⊎◌, ◌<◌, ◌+◌, ◌^◌, ℕ, List, All, Bool, Contains, IsTrue, length};
ghost use Rattle.krb_enc.specs.Key.{profile_of};
ghost use Rattle.krb_context.specs.Side.{Sender, peer_of, peer_sender};
ghost use Rattle.krb_context.specs.Mic.{IsMic, mic_token};
ghost use Rattle.krb_context.specs.Wrap.{IsInPlain, IsSealed, IsWrap, rotated_token, sealed_token, wrap_overhead, wrap_token};
ghost use Rattle.krb_context.specs.Faults.{IsMicFault, IsWrapFault};
ghost use Rattle.krb_context.specs.Sequence.{IsOrder, Stands, sent_numbers};
ghost use Rattle.krb_context.specs.Context.{HasOrder, HasSentFirst, IsBegun, IsNextFor, IsOutOfOrder, State, Takes, first_of, number_after, sender_in};
ghost use Rattle.krb_context.specs.declared.agreed.Agreed.{Agreed};
ghost use Rattle.krb_context.specs.declared.fault.MessageFault.{MessageFault};
ghost use Rattle.krb_context.specs.declared.fault.ReceiveFault.{ReceiveFault};
ghost use Rattle.krb_context.specs.declared.order.Order.{Order};
ghost use Rattle.krb_context.specs.declared.order.Order.TheVariants.{Next, Repeat, Old};
ghost use Rattle.krb_context.specs.declared.role.Role.{Role};

/// What one side takes is what the other side sends, if both agreed on the same keys.
pub fn both_sides_agree()
    ensures { (agreed : Agreed) (side : Role)
        → peer_sender (sender_in agreed side) ≡ sender_in agreed (peer_of side) }
{}

/// Two sides that are made of what both agreed on begin in step: the next token of each is the next
/// one for the other, which took none.
pub fn both_begin_in_step()
    ensures { (agreed : Agreed) (side : Role) (from to : State)
        → IsBegun agreed side from → IsBegun agreed (peer_of side) to
        → IsNextFor from to (first_of agreed side) 0 }
{}

/// Two such sides are still in step after each has sent its first token and taken that of the other, as
/// after the MICs of a list of mechanisms: the second token of each is the next one for the other.
pub fn both_go_on_in_step()
    ensures { (agreed : Agreed) (side : Role) (from to : State)
        → HasSentFirst agreed side from → HasSentFirst agreed (peer_of side) to
        → first_of agreed side + 1 < 2 ^ 64 → IsNextFor from to (first_of agreed side) 1 }
{}

/// What a side writes is a token of it, of that text and with that number. So the other side takes
/// it, or refuses it for its order alone, by the clauses `found` of `Context::verify_mic` and
/// `Context::unwrap`.
pub fn what_is_written_is_read()
    ensures mic { (sender : Sender) (number : ℕ) (text : List ℕ) → number < 2 ^ 64
        → IsMic sender number text (mic_token sender number text) }
    ensures wrap { (sender : Sender) (is_sealed : Bool) (rotation : ℕ) (confounder : List ℕ) (number : ℕ) (text : List ℕ)
        → number < 2 ^ 64 → rotation < 2 ^ 16 → length confounder ≡ 16 → All (λ byte. byte < 256) confounder → All (λ byte. byte < 256) text
        → IsWrap sender is_sealed number text (wrap_token sender is_sealed rotation confounder number text) }
    ensures as_it_is { (sender : Sender) (confounder : List ℕ) (number : ℕ) (text : List ℕ)
        → rotated_token sender 0 confounder number text ≡ sealed_token sender confounder number text }
{}

/// A Wrap token has one text, one number, and is sealed or in plain. A MIC token has one number.
pub fn one_text()
    ensures wrap { (sender : Sender) (one_sealed other_sealed : Bool) (one other : ℕ) (one_text other_text token : List ℕ)
        → IsWrap sender one_sealed one one_text token → IsWrap sender other_sealed other other_text token
        → (one_sealed ≡ other_sealed) × (one ≡ other) × (one_text ≡ other_text) }
    ensures mic { (sender : Sender) (one other : ℕ) (one_text other_text token : List ℕ)
        → IsMic sender one one_text token → IsMic sender other other_text token → one ≡ other }
{}

/// A token that a side sent is refused by that side itself, for its flag SentByAcceptor, and for
/// nothing else.
pub fn own_tokens_are_refused()
    ensures mic { (sender : Sender) (number : ℕ) (text other token : List ℕ) → IsMic sender number text token
        → IsMicFault (peer_sender sender) other token MessageFault.Direction }
    ensures wrap { (sender : Sender) (is_sealed : Bool) (number : ℕ) (text token : List ℕ)
        → IsWrap sender is_sealed number text token → IsWrapFault (peer_sender sender) token MessageFault.Direction }
    ensures no_mic { (sender : Sender) (number other_number : ℕ) (text other token : List ℕ)
        → IsMic sender number text token → IsMic (peer_sender sender) other_number other token → ⊥ }
    ensures no_wrap { (sender : Sender) (is_sealed other_sealed : Bool) (number other_number : ℕ) (text other token : List ℕ)
        → IsWrap sender is_sealed number text token → IsWrap (peer_sender sender) other_sealed other_number other token → ⊥ }
{}

/// A MIC token is no Wrap token, whatever the keys and sides are.
pub fn kinds_are_apart()
    ensures { (one other : Sender) (is_sealed : Bool) (one_number other_number : ℕ) (one_text other_text token : List ℕ)
        → IsMic one one_number one_text token → IsWrap other is_sealed other_number other_text token → ⊥ }
{}

/// The numbers that a side sends, taken as it sends them, are each the next one. A number that was
/// taken is a repeat, or too old to know. Each number stands in one way to those before it.
pub fn each_number_once()
    ensures in_order { (first count : ℕ) → IsOrder first (sent_numbers first count) (first + count) Next }
    ensures once { (first : ℕ) (taken : List ℕ) (number : ℕ) (order : Order)
        → IsOrder first taken number order → Contains taken number → (order ≡ Repeat) ⊎ (order ≡ Old) }
    ensures one { (first : ℕ) (taken : List ℕ) (number : ℕ) (one other : Order)
        → IsOrder first taken number one → IsOrder first taken number other → one ≡ other }
{}

/// A side whose options refuse repeats takes no number twice.
pub fn repeats_are_refused()
    ensures { (old new : State) (first : ℕ) (taken : List ℕ) (number : ℕ) (order : Order)
        → IsTrue old.options.refuses_repeats → Stands old.window first taken → Contains taken number
        → Takes old number order new → ⊥ }
{}

/// The next token that a side sends reaches the other side: if that one took all tokens before it,
/// in their order, then it takes this one with its text, as the next one, also if it takes tokens
/// only in order. What it took is never the next one again.
pub fn the_next_token_is_taken()
    ensures wrap { (from to : State) (first count : ℕ) (is_sealed : Bool) (confounder text : List ℕ)
        → IsNextFor from to first count → length confounder ≡ 16 → All (λ byte. byte < 256) confounder → All (λ byte. byte < 256) text
        → IsWrap (peer_sender to.sender) is_sealed (first + count) text
        (wrap_token from.sender is_sealed from.options.rotation confounder (first + count) text) }
    ensures mic { (from to : State) (first count : ℕ) (text : List ℕ) → IsNextFor from to first count
        → IsMic (peer_sender to.sender) (first + count) text (mic_token from.sender (first + count) text) }
    ensures next { (from to : State) (first count : ℕ) (order : Order) → IsNextFor from to first count
        → HasOrder to.window (first + count) order → order ≡ Next }
    ensures not_refused { (from to : State) (first count : ℕ) (fault : ReceiveFault) → IsNextFor from to first count
        → IsOutOfOrder to (first + count) fault → ⊥ }
    ensures again { (from to after : State) (first count : ℕ) (order : Order) → IsNextFor from to first count
        → Takes to (first + count) Next after → HasOrder after.window (first + count) order → (order ≡ Repeat) ⊎ (order ≡ Old) }
    ensures goes_on { (from to after : State) (first count : ℕ) → IsNextFor from to first count
        → Takes to (first + count) Next after → first + count + 1 < 2 ^ 64
        → IsNextFor (record from { next = number_after (first + count) }) after first (count + 1) }
{}

/// How long a Wrap token is.
pub fn wrap_lengths()
    ensures { (sender : Sender) (is_sealed : Bool) (rotation : ℕ) (confounder : List ℕ) (number : ℕ) (text : List ℕ)
        → length confounder ≡ 16
        → length (wrap_token sender is_sealed rotation confounder number text) ≡ length text + wrap_overhead sender is_sealed }
{}

/// How long a token of a text is: a header of 16 bytes and a checksum, and a Wrap token has the text
/// besides. A sealed one has a confounder of 16 bytes, the header once more, and EC bytes of filler.
pub fn token_lengths()
    ensures mic { (sender : Sender) (number : ℕ) (text token : List ℕ) → IsMic sender number text token
        → length token ≡ 16 + (profile_of sender.key).tag_len }
    ensures plain { (sender : Sender) (number : ℕ) (text token : List ℕ) → IsInPlain sender number text token
        → length token ≡ 16 + length text + (profile_of sender.key).tag_len }
    ensures sealed { (sender : Sender) (number : ℕ) (text token : List ℕ) → (it : IsSealed sender number text token)
        → length token ≡ 48 + length text + length it.filler + (profile_of sender.key).tag_len }
{}
