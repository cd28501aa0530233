// Made from commands.toml by `make generate`. Don't edit this file.

//! What each command has of clap's matches.

ghost use Rattle.std.specs.Prelude.{IfSome, Some, codes};
ghost use Rattle.clap.specs.Words.{found_of, rows_of};
ghost use Rattle.krb_command_line.specs.CommandLine.{IsCommand};

use crate::command_line::{
    AcceptWords, AddWords, CacheForm, Command, ExplainWords, FinishWords, PickWords, RemoveWords,
    RequestWords,
};
use crate::matches::{has_flag, option_of, word_of};
use clap::ArgMatches;

fn list_keytab_of<'a>(matches: &ArgMatches<'a>) -> Option<Command<'a>>
    ensures { IfSome result (λ command. IsCommand command (Some (codes "list-keytab", rows_of (found_of matches.now)))) }
{
    let readable = has_flag(matches, "readable");
    let file = word_of(matches, "FILE")?;
    Some(Command::ListKeytab { readable, file })
}

fn list_ccache_of<'a>(matches: &ArgMatches<'a>) -> Option<Command<'a>>
    ensures { IfSome result (λ command. IsCommand command (Some (codes "list-ccache", rows_of (found_of matches.now)))) }
{
    let now = option_of(matches, "now");
    let file = word_of(matches, "FILE")?;
    if has_flag(matches, "readable") {
        return Some(Command::ListCcache {
            form: CacheForm::Table { now },
            file,
        });
    }
    match now {
        None => Some(Command::ListCcache {
            form: CacheForm::Lines,
            file,
        }),
        // (clap refuses it without the flag)
        Some(_) => None,
    }
}

fn check_keytab_of<'a>(matches: &ArgMatches<'a>) -> Option<Command<'a>>
    ensures { IfSome result (λ command. IsCommand command (Some (codes "check-keytab", rows_of (found_of matches.now)))) }
{
    let file = word_of(matches, "FILE")?;
    Some(Command::CheckKeytab { file })
}

fn check_ccache_of<'a>(matches: &ArgMatches<'a>) -> Option<Command<'a>>
    ensures { IfSome result (λ command. IsCommand command (Some (codes "check-ccache", rows_of (found_of matches.now)))) }
{
    let file = word_of(matches, "FILE")?;
    Some(Command::CheckCcache { file })
}

fn convert_keytab_of<'a>(matches: &ArgMatches<'a>) -> Option<Command<'a>>
    ensures { IfSome result (λ command. IsCommand command (Some (codes "convert-keytab", rows_of (found_of matches.now)))) }
{
    let file = word_of(matches, "FILE")?;
    let out = word_of(matches, "OUT")?;
    let replace = has_flag(matches, "replace");
    Some(Command::ConvertKeytab { file, out, replace })
}

fn convert_ccache_of<'a>(matches: &ArgMatches<'a>) -> Option<Command<'a>>
    ensures { IfSome result (λ command. IsCommand command (Some (codes "convert-ccache", rows_of (found_of matches.now)))) }
{
    let file = word_of(matches, "FILE")?;
    let out = word_of(matches, "OUT")?;
    let replace = has_flag(matches, "replace");
    Some(Command::ConvertCcache { file, out, replace })
}

fn pick_key_of<'a>(matches: &ArgMatches<'a>) -> Option<Command<'a>>
    ensures { IfSome result (λ command. IsCommand command (Some (codes "pick-key", rows_of (found_of matches.now)))) }
{
    let keytab = word_of(matches, "KEYTAB")?;
    let name = word_of(matches, "NAME")?;
    let etype = word_of(matches, "ETYPE")?;
    let kvno = option_of(matches, "kvno");
    Some(Command::PickKey(PickWords {
        keytab,
        name,
        etype,
        kvno,
    }))
}

fn remove_key_of<'a>(matches: &ArgMatches<'a>) -> Option<Command<'a>>
    ensures { IfSome result (λ command. IsCommand command (Some (codes "remove-key", rows_of (found_of matches.now)))) }
{
    let keytab = word_of(matches, "KEYTAB")?;
    let index = word_of(matches, "INDEX")?;
    let out = option_of(matches, "out");
    Some(Command::RemoveKey(RemoveWords { keytab, index, out }))
}

fn add_keys_of<'a>(matches: &ArgMatches<'a>) -> Option<Command<'a>>
    ensures { IfSome result (λ command. IsCommand command (Some (codes "add-keys", rows_of (found_of matches.now)))) }
{
    let keytab = word_of(matches, "KEYTAB")?;
    let from = word_of(matches, "FROM")?;
    let out = option_of(matches, "out");
    Some(Command::AddKeys(AddWords { keytab, from, out }))
}

fn request_of<'a>(matches: &ArgMatches<'a>) -> Option<Command<'a>>
    ensures { IfSome result (λ command. IsCommand command (Some (codes "request", rows_of (found_of matches.now)))) }
{
    let file = word_of(matches, "FILE")?;
    let service = word_of(matches, "SERVICE")?;
    let time = word_of(matches, "time")?;
    let usec = word_of(matches, "usec")?;
    let confounder = word_of(matches, "confounder")?;
    let mutual = has_flag(matches, "mutual");
    let token = option_of(matches, "token");
    Some(Command::Request(RequestWords {
        file,
        service,
        time,
        usec,
        confounder,
        mutual,
        token,
    }))
}

fn accept_of<'a>(matches: &ArgMatches<'a>) -> Option<Command<'a>>
    ensures { IfSome result (λ command. IsCommand command (Some (codes "accept", rows_of (found_of matches.now)))) }
{
    let keytab = word_of(matches, "KEYTAB")?;
    let skew = word_of(matches, "skew")?;
    let started = option_of(matches, "started");
    let service = option_of(matches, "service");
    let only = option_of(matches, "only");
    let tokens = has_flag(matches, "tokens");
    Some(Command::Accept(AcceptWords {
        keytab,
        skew,
        started,
        service,
        only,
        tokens,
    }))
}

fn finish_of<'a>(matches: &ArgMatches<'a>) -> Option<Command<'a>>
    ensures { IfSome result (λ command. IsCommand command (Some (codes "finish", rows_of (found_of matches.now)))) }
{
    let file = word_of(matches, "FILE")?;
    let service = word_of(matches, "SERVICE")?;
    let time = word_of(matches, "time")?;
    let usec = word_of(matches, "usec")?;
    let reply = word_of(matches, "reply")?;
    Some(Command::Finish(FinishWords {
        file,
        service,
        time,
        usec,
        reply,
    }))
}

fn explain_of<'a>(matches: &ArgMatches<'a>) -> Option<Command<'a>>
    ensures { IfSome result (λ command. IsCommand command (Some (codes "explain", rows_of (found_of matches.now)))) }
{
    let message = option_of(matches, "MESSAGE");
    let file = option_of(matches, "file");
    let keytab = option_of(matches, "keytab");
    let at = option_of(matches, "at");
    let skew = word_of(matches, "skew")?;
    let only = option_of(matches, "only");
    Some(Command::Explain(ExplainWords {
        message,
        file,
        keytab,
        at,
        skew,
        only,
    }))
}

/// What a command of this name has of the matches.
pub(crate) fn command_named<'a>(name: &str, matches: &ArgMatches<'a>) -> Option<Command<'a>>
    ensures { IfSome result (λ command. IsCommand command (Some (name.now, rows_of (found_of matches.now)))) }
{
    match name {
        "list-keytab" => list_keytab_of(matches),
        "list-ccache" => list_ccache_of(matches),
        "check-keytab" => check_keytab_of(matches),
        "check-ccache" => check_ccache_of(matches),
        "convert-keytab" => convert_keytab_of(matches),
        "convert-ccache" => convert_ccache_of(matches),
        "pick-key" => pick_key_of(matches),
        "remove-key" => remove_key_of(matches),
        "add-keys" => add_keys_of(matches),
        _ => message_command_named(name, matches),
    }
}

fn message_command_named<'a>(name: &str, matches: &ArgMatches<'a>) -> Option<Command<'a>>
    ensures { IfSome result (λ command. IsCommand command (Some (name.now, rows_of (found_of matches.now)))) }
{
    match name {
        "request" => request_of(matches),
        "accept" => accept_of(matches),
        "finish" => finish_of(matches),
        "explain" => explain_of(matches),
        _ => None,
    }
}
