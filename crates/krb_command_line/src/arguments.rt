//! The operands and options of a command, as `clap` gets them.

ghost use Rattle.std.specs.Prelude.{◌≡◌, false, IfOk};
ghost use Rattle.clap.specs.Words.{rule_of};
ghost use Rattle.krb_command_line.specs.Arguments.{excluding_another, needing_another};
ghost use Rattle.krb_command_line.specs.Inner.Commands.{ranged, rule_for, rule_of_kind};

use clap::builder::ValueParser;
use clap::{Arg, ArgAction};
use std::alloc::{AllocError, Global};

/// An operand or an option of a command.
#[derive(Clone, Copy)]
pub(crate) struct Argument<'a> {
    /// Its name, which of an option is the word after `--` too.
    pub(crate) name: &'a str,
    /// What is given with it.
    pub(crate) kind: Kind<'a>,
    /// The greatest value, if that is a whole number from 0 on, and not any text.
    pub(crate) greatest: Option<u64>,
    /// What help says of it.
    pub(crate) help: &'a str,
}

/// What is given with an argument.
#[derive(Clone, Copy)]
pub(crate) enum Kind<'a> {
    /// An operand, which has to be there.
    Operand,
    /// An operand that may be left out.
    Optional,
    /// An option without a value.
    Flag,
    /// An option with a value, which has to be there.
    Needed,
    /// One that may be left out.
    Free,
    /// One that is refused unless this one is given.
    With(&'a str),
    /// One that is refused if this operand is given.
    Without(&'a str),
    /// One that has this value if it is left out.
    Defaulted(&'a str),
}

/// Builds the argument.
pub(crate) fn arg_of<'a>(alloc: Global, argument: &Argument<'a>) -> Result<Arg<'a>, AllocError>
    ensures rule { IfOk result (λ r. rule_of r ≡ rule_for argument.now) }
    ensures local { IfOk result (λ r. r.global ≡ false) }
{
    let arg = arg_of_kind(alloc, argument)?;
    Ok(with_range(arg, argument.greatest))
}

// The argument, with any value.
fn arg_of_kind<'a>(alloc: Global, argument: &Argument<'a>) -> Result<Arg<'a>, AllocError>
    ensures rule { IfOk result (λ r. rule_of r ≡ rule_of_kind argument.now.name.now argument.now.kind) }
    ensures local { IfOk result (λ r. r.global ≡ false) }
{
    let name = argument.name;
    let arg = Arg::new(alloc, name).help(argument.help);
    match argument.kind {
        Kind::Operand => Ok(arg.required(true)),
        Kind::Optional => Ok(arg),
        Kind::Flag => Ok(arg.long(name).action(ArgAction::SetTrue)),
        Kind::Needed => Ok(arg.long(name).required(true)),
        Kind::Free => Ok(arg.long(name)),
        Kind::With(other) => with_another(arg.long(name), other),
        Kind::Without(other) => without_another(arg.long(name), other),
        Kind::Defaulted(value) => Ok(arg.long(name).default_value(value)),
    }
}

// The argument, whose value is a number up to this one, if there is one.
fn with_range<'a>(arg: Arg<'a>, greatest: Option<u64>) -> Arg<'a>
    ensures rule { rule_of result ≡ ranged greatest (rule_of arg.entry) }
    ensures local { result.global ≡ arg.entry.global }
{
    match greatest {
        Some(greatest) => arg.value_parser(ValueParser::unsigned(0, greatest)),
        None => arg,
    }
}

// The argument, which is refused unless the other is given.
fn with_another<'a>(arg: Arg<'a>, other: &'a str) -> Result<Arg<'a>, AllocError>
    ensures rule { IfOk result (λ r. rule_of r ≡ needing_another (rule_of arg.entry)) }
    ensures local { IfOk result (λ r. r.global ≡ arg.entry.global) }
{
    arg.requires_arg(other)
}

// The argument, which is refused if the other is given.
fn without_another<'a>(arg: Arg<'a>, other: &'a str) -> Result<Arg<'a>, AllocError>
    ensures rule { IfOk result (λ r. rule_of r ≡ excluding_another (rule_of arg.entry)) }
    ensures local { IfOk result (λ r. r.global ≡ arg.entry.global) }
{
    arg.conflicts_with(other)
}
