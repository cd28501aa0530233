//! Reading the text of a name, symbol by symbol.

ghost use Rattle.std.specs.Prelude.{◌≡◌, ◌⊎◌, ◌+◌, ◌<◌, ◌^◌, [], ◌∷◌, length, option_map, IfSome, IfNone, MatchBool, None};
ghost use Rattle.krb_file.specs.Cursor.{Place};
ghost use Rattle.krb_name.specs.Inner.Names.{Advances, AtEnd, CountsComponents, ReadsByte, ReadsName, ReadsComponents, ReadsRealm, SkipsName, SkipsRealm};
ghost use Rattle.krb_name.specs.Inner.Escapes.{hex_value, hex_byte, hex_at, escape_at, byte_at};

use crate::bytes::Bytes;
use crate::components::Components;
use crate::text_fault::TextFault;
use std::alloc::Global;
use std::marker::Model;

/// A place in a text: its offset, and the bytes from there on.
#[derive(Drop)]
pub(crate) struct TextCursor<'a> {
    at: usize,
    rest: &'a [u8],
}

impl<'a> Model for TextCursor<'a> {
    ghost Value = { Place };

    ghost view = { λ c. record { at = c.at; rest = c.rest.now } };

    ghost invariant = { λ c. c.at + length c.rest.now < 2 ^ 64 };
}

impl<'a> TextCursor<'a> {
    /// Starts at the start of `text`.
    pub(crate) fn new(text: &'a str) -> Self
        ensures { result ≡ record { at = 0; rest = text.now } }
    {
        TextCursor {
            at: 0,
            rest: text.as_bytes(),
        }
    }

    /// Reads the components up to the first bare `@`, and moves past it.
    pub(crate) fn read_components(&mut self, alloc: Global) -> Result<Components, TextFault>
        ensures { ReadsComponents self.old self.new result }
    {
        let mut components = Components::new(alloc);
        loop {
            components.push(self.read_name(alloc)?.as_slice())?;
            match self.next_separator() {
                Some(b'/') => {}
                Some(_) => return Ok(components),
                None => return Err(TextFault::NoRealm),
            }
        }
    }

    /// Reads the realm, which is all that is left.
    pub(crate) fn read_realm(&mut self, alloc: Global) -> Result<Bytes, TextFault>
        ensures { ReadsRealm self.old self.new result }
    {
        let realm = self.read_name(alloc)?;
        if !self.rest.is_empty() {
            return Err(TextFault::BadText { at: self.at });
        }
        Ok(realm)
    }

    /// Passes over the components up to the first bare `@` and past it, and returns how many there
    /// are.
    pub(crate) fn count_components(&mut self) -> Result<usize, TextFault>
        ensures { CountsComponents self.old self.new result }
    {
        let mut count = 0;
        loop {
            self.skip_name()?;
            match self.next_separator() {
                Some(b'/') => count += 1,
                Some(_) => return Ok(count + 1),
                None => return Err(TextFault::NoRealm),
            }
        }
    }

    /// Passes over the realm, which is all that is left.
    pub(crate) fn skip_realm(&mut self) -> Result<(), TextFault>
        ensures { SkipsRealm self.old self.new result }
    {
        self.skip_name()?;
        if !self.rest.is_empty() {
            return Err(TextFault::BadText { at: self.at });
        }
        Ok(())
    }

    // Passes over a component or the realm, up to a separator or the end.
    fn skip_name(&mut self) -> Result<(), TextFault>
        ensures { SkipsName self.old self.new result }
    {
        while let Some(_byte) = self.next_byte() {}
        if !is_name_end(self.rest) {
            return Err(TextFault::BadText { at: self.at });
        }
        Ok(())
    }

    // Reads a component or the realm, up to a separator or the end.
    fn read_name(&mut self, alloc: Global) -> Result<Bytes, TextFault>
        ensures { ReadsName self.old self.new result }
    {
        let mut name = Bytes::new(alloc);
        while let Some(byte) = self.next_byte() {
            name.push(byte)?;
        }
        if !is_name_end(self.rest) {
            return Err(TextFault::BadText { at: self.at });
        }
        Ok(name)
    }

    // Steps over a separator, if there is one here.
    fn next_separator(&mut self) -> Option<u8>
        ensures some { IfSome result (λ byte. Advances self.old (byte ∷ []) self.new
            × ((byte ≡ 0x2f) ⊎ (byte ≡ 0x40))) }
        ensures none { IfNone result (AtEnd self.old.rest → self.old.rest ≡ []) }
        ensures small { self.new.at < 2 ^ 64 }
        ensures stays { IfNone result (self.new ≡ self.old) }
    {
        let (first, rest) = self.rest.split_first()?;
        if *first != b'/' && *first != b'@' {
            return None;
        }
        self.at += 1;
        self.rest = rest;
        Some(*first)
    }

    // Reads a byte of a component or a realm, if there is one here.
    fn next_byte(&mut self) -> Option<u8>
        ensures some { IfSome result (λ byte. ReadsByte self.old byte self.new) }
        ensures none { IfNone result (byte_at self.old.rest ≡ None) }
        ensures stays { IfNone result (self.new ≡ self.old) }
    {
        let (byte, rest) = byte_at(self.rest)?;
        self.at += self.rest.len() - rest.len();
        self.rest = rest;
        Some(byte)
    }
}

fn is_name_end(rest: &[u8]) -> bool
    ensures { MatchBool result (AtEnd rest.now) (AtEnd rest.now → ⊥) }
{
    match rest {
        [] => true,
        [first, ..] => *first == b'/' || *first == b'@',
    }
}

#[tactic(auto, unfolding(crate::specs::Inner::Escapes::byte_at))]
fn byte_at(text: &[u8]) -> Option<(u8, &[u8])>
    ensures { option_map (λ x. (x.0, x.1.now)) result ≡ byte_at text.now }
{
    match text {
        [b'\\', rest @ ..] => escape_at(rest),
        [b'/' | b'@', ..] => None,
        [byte @ 0x21..=0x7e, rest @ ..] => Some((*byte, rest)),
        _ => None,
    }
}

#[tactic(auto, unfolding(crate::specs::Inner::Escapes::escape_at))]
fn escape_at(text: &[u8]) -> Option<(u8, &[u8])>
    ensures { option_map (λ x. (x.0, x.1.now)) result ≡ escape_at text.now }
{
    match text {
        [byte @ (b'/' | b'@' | b'\\'), rest @ ..] => Some((*byte, rest)),
        [b'x', rest @ ..] => hex_at(rest),
        _ => None,
    }
}

#[tactic(auto, unfolding(crate::specs::Inner::Escapes::hex_at))]
fn hex_at(text: &[u8]) -> Option<(u8, &[u8])>
    ensures { option_map (λ x. (x.0, x.1.now)) result ≡ hex_at text.now }
{
    match text {
        [high, low, rest @ ..] => Some((hex_byte(*high, *low)?, rest)),
        _ => None,
    }
}

#[tactic(auto, unfolding(crate::specs::Inner::Escapes::hex_byte))]
fn hex_byte(high: u8, low: u8) -> Option<u8>
    ensures { result ≡ hex_byte high low }
{
    let byte = hex_value(high)? * 16 + hex_value(low)?;
    match byte {
        0x21..=0x7e => None,
        _ => Some(byte),
    }
}

#[tactic(auto, unfolding(crate::specs::Inner::Escapes::hex_value))]
fn hex_value(digit: u8) -> Option<u8>
    ensures value { result ≡ hex_value digit }
    ensures small { IfSome result (λ value. value < 16) }
{
    match digit {
        b'0'..=b'9' => Some(digit - b'0'),
        b'a'..=b'f' => Some(digit - b'a' + 10),
        _ => None,
    }
}
