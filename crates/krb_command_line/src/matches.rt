//! What clap's matches have of an argument.

ghost use Rattle.std.specs.Prelude.{ℕ, List, IfSome, IsSome};
ghost use Rattle.std.specs.Borrow.{Bor};
ghost use Rattle.clap.specs.Words.{rows_of, found_of};
ghost use Rattle.krb_command_line.specs.Arguments.{given, optional, word};
ghost use Rattle.krb_command_line.specs.CommandLine.{HasValue};

use clap::ArgMatches;

/// The value of an operand or an option.
pub(crate) fn word_of<'a>(matches: &ArgMatches<'a>, name: &str) -> Option<&'a str>
    ensures found { IfSome result (λ value. HasValue (rows_of (found_of matches.now)) name.now (word value)) }
    ensures all { (value : Bor (List ℕ)) → HasValue (rows_of (found_of matches.now)) name.now (word value) → IsSome result }
{
    option_of(matches, name)
}

/// The value of an option, if it isn't left out.
#[tactic(auto, using(crate::proofs::Getters::getters))]
pub(crate) fn option_of<'a>(matches: &ArgMatches<'a>, name: &str) -> Option<&'a str>
    ensures { HasValue (rows_of (found_of matches.now)) name.now (optional result) }
{
    matches.get_str(name)
}

/// Whether this flag was given.
#[tactic(auto, using(crate::proofs::Getters::getters))]
pub(crate) fn has_flag(matches: &ArgMatches<'_>, name: &str) -> bool
    ensures { HasValue (rows_of (found_of matches.now)) name.now (given result) }
{
    matches.get_flag(name)
}
