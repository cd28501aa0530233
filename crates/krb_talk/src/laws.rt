//! Laws of the definitions. Each function has an empty body: its contract is the law. Each law begins with what
//! [`Talk::answer`](crate::Talk::answer) says by its clause `decided`, or [`Talk::take`](crate::Talk::take) by `takes` and
//! [`Talk::conclude`](crate::Talk::conclude) by `concludes`.

ghost use Rattle.std.specs.Prelude.{◌≡◌, ◌<◌, ℕ, IsTrue, List, Vec};
ghost use Rattle.std.specs.declared.alloc.Global.{Global as GlobalValue};
ghost use Rattle.krb_ap.specs.declared.reply.ReplyOptions.{ReplyOptions};
ghost use Rattle.krb_context.specs.declared.agreed.Options.{Options};
ghost use Rattle.krb_gss.specs.declared.negotiating.Negotiation.TheVariants.{Begun, Ended};
ghost use Rattle.krb_gss.specs.declared.negotiating.Negotiation.{Negotiation as NegotiationValue};
ghost use Rattle.krb_login.specs.declared.decision.Decision.{Decision as LoginDecisionValue};
ghost use Rattle.krb_login.specs.declared.decision.LetIn.{LetIn as LetInValue};
ghost use Rattle.krb_talk.specs.Checking.{Check, IsAwaited, IsShown};
ghost use Rattle.krb_talk.specs.Laws.{HasSentMics, IsGoOn, IsIn, IsLetInOver};
ghost use Rattle.krb_talk.specs.Pending.{IsFinished};
ghost use Rattle.krb_talk.specs.States.{Listing, Pending as PendingValue};
ghost use Rattle.krb_talk.specs.Talk.{DecidesAt, Point, TalksAt, messages_left};
ghost use Rattle.krb_talk.specs.Turns.{ConcludesAt, Takes};
ghost use Rattle.krb_talk.specs.declared.checking.Admitted.{Admitted as AdmittedValue};
ghost use Rattle.krb_talk.specs.declared.decision.Decision.{Decision as DecisionValue};
ghost use Rattle.krb_talk.specs.declared.stage.Stage.{Stage as StageValue};

use crate::decision::Decision;
use crate::stage::Stage;
use crate::talk::Turn;

/// A client whose list, as it arrived at the service, names Kerberos later is let in only over this list. The service would let it in
/// by the message that follows. That message, or the one after it, has the client's MIC of the very list that the service saw, under
/// the key of their context. So nothing that is changed in such a list on its way lets a client in, unless its MIC is that of the
/// changed list.
///
/// This says nothing of a client whose list arrives with Kerberos first: it is taken without a look at its mechListMIC.
pub fn let_in_only_over_its_list()
    ensures at_once { (first second : Point) (options : Options) (listing : Listing) (asked : DecisionValue) (login : AdmittedValue) (new : StageValue)
        → TalksAt first options (Stage.Login Begun) asked (Stage.Listed listing)
        → TalksAt second options (Stage.Listed listing) (Decision.Shown login) new
        → IsLetInOver first.given.bytes.now second.given.bytes.now (DecidesAt second) second.given.choice login }
    ensures at_last { (first second third : Point) (options : Options) (listing : Listing) (pending : PendingValue) (asked again : DecisionValue)
        (login : AdmittedValue) (new : StageValue)
        → TalksAt first options (Stage.Login Begun) asked (Stage.Listed listing)
        → TalksAt second options (Stage.Listed listing) again (Stage.Waiting pending)
        → TalksAt third options (Stage.Waiting pending) (Decision.Shown login) new
        → IsLetInOver first.given.bytes.now third.given.bytes.now (DecidesAt second) second.given.choice login }
{}

/// If the context takes messages in order, a client that is let in over its list has sent its first message by that, and the service its
/// own. Both are MICs of the list, and what follows goes on after them.
pub fn both_have_sent_their_mics()
    ensures at_once { (check : Check) (login : AdmittedValue) → IsTrue check.options.is_in_order → IsShown check login
        → HasSentMics login.accepted check.choice login.context.value }
    ensures at_last { (check : Check) (pending : PendingValue) (sent bytes : List ℕ) (login : AdmittedValue) → IsTrue check.options.is_in_order
        → IsAwaited check pending sent → IsFinished pending bytes login → HasSentMics login.accepted check.choice login.context.value }
{}

/// After such a list no client is let in by the service's decision alone.
pub fn a_list_is_never_passed_over()
    ensures listed { (at : Point) (options : Options) (listing : Listing) (login : LetInValue) (new : StageValue)
        → TalksAt at options (Stage.Listed listing) (Decision.LetIn login) new → ⊥ }
    ensures waiting { (at : Point) (options : Options) (pending : PendingValue) (login : LetInValue) (new : StageValue)
        → TalksAt at options (Stage.Waiting pending) (Decision.LetIn login) new → ⊥ }
{}

/// A login takes three messages at most: each `GoOn` leaves fewer, and after any other decision the login is over.
pub fn few_messages()
    ensures fewer { (at : Point) (options : Options) (old new : StageValue) (sent : Vec ℕ GlobalValue)
        → TalksAt at options old (Decision.GoOn sent) new → messages_left new < messages_left old }
    ensures over { (at : Point) (options : Options) (old new : StageValue) (decision : DecisionValue)
        → TalksAt at options old decision new → (IsGoOn decision → ⊥) → new ≡ Stage.Login Ended }
{}

/// A message that is taken, decided on by a service and concluded is answered as by [`Talk::answer`](crate::Talk::answer).
pub fn turns_are_talks()
    ensures alone { (at : Point) (options : Options) (old new : StageValue) (decision : DecisionValue)
        → Takes at.given.bytes.now old (Turn.Decided decision) new → TalksAt at options old decision new }
    ensures served { (at : Point) (options : Options) (old mid new : StageValue) (negotiation after : NegotiationValue) (decided : LoginDecisionValue)
        (decision : DecisionValue) → Takes at.given.bytes.now old (Turn.Serve negotiation) mid → DecidesAt at negotiation after decided
        → ConcludesAt mid at.given.bytes.now at.given.confounder.now at.given.choice options after decided decision new
        → TalksAt at options old decision new }
{}

/// After [`Turn::Decided`](crate::Turn::Decided) no decision of a service on the same message lets the client in. Unless the client was
/// asked for its next message, no decision on any other one does.
pub fn no_second_decision()
    ensures same { (bytes confounder : List ℕ) (choice : ReplyOptions) (options : Options) (old mid new : StageValue) (first decision : DecisionValue)
        (after : NegotiationValue) (decided : LoginDecisionValue) → Takes bytes old (Turn.Decided first) mid
        → ConcludesAt mid bytes confounder choice options after decided decision new → IsIn decision → ⊥ }
    ensures over { (taken bytes confounder : List ℕ) (choice : ReplyOptions) (options : Options) (old mid new : StageValue) (first decision : DecisionValue)
        (after : NegotiationValue) (decided : LoginDecisionValue) → Takes taken old (Turn.Decided first) mid → (IsGoOn first → ⊥)
        → ConcludesAt mid bytes confounder choice options after decided decision new → IsIn decision → ⊥ }
{}
