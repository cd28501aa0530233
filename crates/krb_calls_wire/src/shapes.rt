//! Elements that are read whole: the kinds of elements without parts, and some with parts.

use krb_der::{Constant, Cursor, Fault, Field, Flags, Maybe, Octets, Seconds, Text};
use krb_words::{Answer, Words};

/// The kinds are those of `tests/support/der_rules.py`: int32, uint32, seq_number, microseconds, five, octets, string, flags, time; and
/// tagged, nested, pair, options, mixed, maybe (octets tagged a1, or nothing), numbers, texts and name.
pub(crate) fn read(words: &mut Words, out: &mut Answer) -> Option<()> {
    let kind = words.next()?;
    let bytes = words.bytes()?;
    let mut shown = Answer::new(words.alloc);
    match element(&bytes, kind, &mut shown) {
        Ok(made) => {
            made?;
            out.word(shown.whole()?)
        }
        Err(fault) => out.shown(fault),
    }
}

/// Shows the values of the element, unless it has a fault. None if there is no such kind.
fn element(bytes: &[u8], kind: &str, out: &mut Answer) -> Result<Option<()>, Fault> {
    let mut cursor = Cursor::new(bytes)?;
    let made = whole(&mut cursor, kind, out)?;
    cursor.finish()?;
    Ok(made)
}

fn whole<'a>(cursor: &mut Cursor<'a>, kind: &str, out: &mut Answer) -> Result<Option<()>, Fault> {
    match kind {
        "int32" => Ok(out.shown(cursor.read::<i32>()?)),
        "uint32" => Ok(out.shown(cursor.uint32()?)),
        "seq_number" => Ok(out.shown(cursor.seq_number()?)),
        "microseconds" => Ok(out.shown(cursor.microseconds()?.get())),
        "five" => five(cursor, out),
        _ => other(cursor, kind, out),
    }
}

fn other<'a>(cursor: &mut Cursor<'a>, kind: &str, out: &mut Answer) -> Result<Option<()>, Fault> {
    match kind {
        "flags" => Ok(out.shown(cursor.flags()?.bits())),
        "time" => Ok(out.shown(cursor.time()?.get())),
        "octets" => Ok(out.bytes(cursor.octets()?)),
        "string" => Ok(out.bytes(cursor.string()?)),
        _ => parts(cursor, kind, out),
    }
}

fn five(cursor: &mut Cursor, out: &mut Answer) -> Result<Option<()>, Fault> {
    let Constant = cursor.constant::<5>()?;
    Ok(out.word("5"))
}

fn parts<'a>(cursor: &mut Cursor<'a>, kind: &str, out: &mut Answer) -> Result<Option<()>, Fault> {
    match kind {
        "tagged" => Ok(out.shown(cursor.wrapped::<i32>(0xa0)?)),
        "nested" => Ok(out.bytes(cursor.wrapped::<Field<0xa0, Octets>>(0x61)?.0.0)),
        "pair" => Ok(show_pair(cursor.sequence()?, out)),
        "options" => Ok(show_options(cursor.sequence()?, out)),
        "mixed" => mixed(cursor, out),
        _ => lists(cursor, kind, out),
    }
}

fn lists<'a>(cursor: &mut Cursor<'a>, kind: &str, out: &mut Answer) -> Result<Option<()>, Fault> {
    match kind {
        "maybe" => maybe(cursor, out),
        "numbers" => numbers(cursor, out),
        "texts" => Ok(show_texts(texts(cursor)?, out)),
        "name" => Ok(show_name(name(cursor)?, out)),
        _ => Ok(None),
    }
}

type Pair<'a> = (Field<0xa0, i32>, (Field<0xa1, Text<'a>>, ()));

fn show_pair(row: Pair, out: &mut Answer) -> Option<()> {
    let (number, (text, ())) = row;
    out.shown(number.0);
    out.bytes(text.0.0)
}

type Options<'a> = (
    Maybe<0xa0, i32>,
    (Maybe<0xa1, Octets<'a>>, (Maybe<0xa2, Flags>, ())),
);

fn show_options(row: Options, out: &mut Answer) -> Option<()> {
    let (number, (octets, (flags, ()))) = row;
    out.shown_or_none(number.0);
    show_octets(octets.0, out);
    out.shown_or_none(flags.0.map(Flags::bits))
}

fn show_octets(octets: Option<Octets>, out: &mut Answer) -> Option<()> {
    match octets {
        Some(octets) => out.bytes(octets.0),
        None => out.word("none"),
    }
}

type Mixed<'a> = (
    Field<0xa0, Constant<5>>,
    (
        Maybe<0xa1, Seconds>,
        (Field<0xa2, u32>, (Maybe<0xa3, Octets<'a>>, ())),
    ),
);

fn mixed<'a>(cursor: &mut Cursor<'a>, out: &mut Answer) -> Result<Option<()>, Fault> {
    let row: Result<Mixed<'a>, Fault> = cursor.application(0x6e);
    match row {
        Ok((Field(Constant), (time, (number, (octets, ()))))) => {
            let seconds = time.0.map(Seconds::get);
            Ok(show_mixed(seconds, number.0, octets.0, out))
        }
        Err(fault) => Err(fault),
    }
}

fn show_mixed(
    time: Option<i64>,
    number: u32,
    octets: Option<Octets>,
    out: &mut Answer,
) -> Option<()> {
    out.shown_or_none(time);
    out.shown(number);
    show_octets(octets, out)
}

fn maybe(cursor: &mut Cursor, out: &mut Answer) -> Result<Option<()>, Fault> {
    let Some(mut inside) = cursor.optional(0xa1)? else {
        return Ok(out.word("none"));
    };
    let octets = inside.octets()?;
    inside.finish()?;
    Ok(out.bytes(octets))
}

fn numbers(cursor: &mut Cursor, out: &mut Answer) -> Result<Option<()>, Fault> {
    match cursor.list::<i32>() {
        Ok(mut content) => {
            out.word("[");
            for _ in 0..u32::MAX {
                let Some(number) = content.next::<i32>() else {
                    break;
                };
                out.shown(number);
            }
            Ok(out.word("]"))
        }
        Err(fault) => Err(fault),
    }
}

/// The content of a list of texts, all of which were checked.
fn texts<'a>(cursor: &mut Cursor<'a>) -> Result<Cursor<'a>, Fault> {
    let list = cursor.enter(0x30)?;
    list.check_each::<Text>()?;
    Ok(list)
}

fn show_texts(mut list: Cursor, out: &mut Answer) -> Option<()> {
    out.word("[");
    for _ in 0..u32::MAX {
        if list.is_at_end() {
            break;
        }
        out.bytes(list.string().ok()?);
    }
    out.word("]")
}

/// A name, call by call.
fn name<'a>(cursor: &mut Cursor<'a>) -> Result<(i32, Cursor<'a>), Fault> {
    let mut fields = cursor.enter(0x30)?;
    let mut field = fields.enter(0xa0)?;
    let number = field.int32()?;
    field.finish()?;
    let mut field = fields.enter(0xa1)?;
    let list = texts(&mut field)?;
    field.finish()?;
    fields.finish()?;
    Ok((number, list))
}

fn show_name(name: (i32, Cursor), out: &mut Answer) -> Option<()> {
    out.shown(name.0);
    show_texts(name.1, out)
}
