//! Stanzas, as the values of their fields.
ghost use Rattle.std.specs.Prelude.{◌≡◌, ◌<◌, length, option_map, IfOk};
ghost use Rattle.debian_text.specs.Fields.{fields};
ghost use Rattle.debian_scenario.specs.Plain.{plain_stanza};
ghost use Rattle.debian_scenario.specs.Results.{result_map};
ghost use Rattle.debian_scenario.specs.Stanzas.{behind, front};
ghost use Rattle.debian_scenario.specs.Values.{flag_in, flag_of, no_values, required_in, text_in, value_in, values_of};
ghost use Rattle.debian_scenario.specs.Values.{version_in, with_field, word_in};

use crate::fault::StanzaFault;
use crate::key::Key;
use debian_text::{named_value, next_field, trimmed, version, word};

/// The values of the fields that count.
#[derive(Clone, Copy)]
pub(crate) struct Stanza<'t> {
    values: [Option<&'t [u8]>; Key::COUNT],
}

/// The first stanza of a text, and what is behind the empty line that ends it.
pub(crate) fn next_stanza(text: &[u8]) -> Result<(Stanza<'_>, &[u8]), StanzaFault>
    ensures values { result_map (λ r. plain_stanza r.0) result ≡ values_of (front (fields text.now)) }
    ensures rest { IfOk result (λ r. fields r.1.now ≡ behind (fields text.now)) }
    ensures shorter { 0 < length text.now → IfOk result (λ r. length r.1.now < length text.now) }
{
    let mut stanza = Stanza::new();
    let mut rest = text;
    'fields: while let Some((field, others)) = next_field(rest) {
        if field.is_empty() {
            return Ok((stanza, others));
        }
        stanza.add(field)?;
        rest = others;
    }
    Ok((stanza, rest))
}

impl<'t> Stanza<'t> {
    /// One without fields.
    fn new() -> Stanza<'t>
        ensures { plain_stanza result ≡ no_values }
    {
        Stanza {
            values: [None; Key::COUNT],
        }
    }

    /// Adds a field. After a fault the stanza isn't used.
    fn add(&mut self, field: &'t [u8]) -> Result<(), StanzaFault>
        ensures { result_map (λ _. plain_stanza self.new) result ≡ with_field (plain_stanza self.old) field.now }
    {
        let Some((name, value)) = named_value(field) else {
            return Err(StanzaFault::NoColon);
        };
        let Some(key) = Key::of(name) else {
            return Ok(());
        };
        if self.value(key).is_some() {
            return Err(StanzaFault::Twice(key));
        }
        self.values[key.place()] = Some(value);
        Ok(())
    }

    /// The value of a field, with white space; none if there is no such field.
    fn value(&self, key: Key) -> Option<&'t [u8]>
        ensures { option_map (λ v. v.now) result ≡ value_in key (plain_stanza self.now) }
    {
        self.values[key.place()]
    }

    /// The value of a field, with white space; an empty text if there is no such field.
    pub(crate) fn text(&self, key: Key) -> &'t [u8]
        ensures { result.now ≡ text_in key (plain_stanza self.now) }
    {
        match self.value(key) {
            Some(text) => text,
            None => &[],
        }
    }

    /// The value of a field that has to be there, with white space.
    pub(crate) fn required(&self, key: Key) -> Result<&'t [u8], StanzaFault>
        ensures { result_map (λ v. v.now) result ≡ required_in key (plain_stanza self.now) }
    {
        match self.value(key) {
            Some(text) => Ok(text),
            None => Err(StanzaFault::Missing(key)),
        }
    }

    /// The word of a field that has to be there.
    pub(crate) fn word(&self, key: Key) -> Result<&'t [u8], StanzaFault>
        ensures { result_map (λ w. w.now) result ≡ word_in key (plain_stanza self.now) }
    {
        let text = self.required(key)?;
        match word(text) {
            Some(word) => Ok(word),
            None => Err(StanzaFault::Unreadable(key)),
        }
    }

    /// The version of a field that has to be there.
    pub(crate) fn version(&self, key: Key) -> Result<&'t [u8], StanzaFault>
        ensures { result_map (λ w. w.now) result ≡ version_in key (plain_stanza self.now) }
    {
        let text = self.required(key)?;
        match version(text) {
            Some(version) => Ok(version),
            None => Err(StanzaFault::Unreadable(key)),
        }
    }

    /// Whether a field says `yes`, and not `no`; `default` if there is no such field.
    pub(crate) fn flag(&self, key: Key, default: bool) -> Result<bool, StanzaFault>
        ensures { result ≡ flag_in key default (plain_stanza self.now) }
    {
        match self.value(key) {
            Some(text) => flag_of(key, text),
            None => Ok(default),
        }
    }
}

/// Whether the value of a field is `yes`, and not `no`.
fn flag_of(key: Key, text: &[u8]) -> Result<bool, StanzaFault>
    ensures { result ≡ flag_of key text.now }
{
    match trimmed(text) {
        b"yes" => Ok(true),
        b"no" => Ok(false),
        _ => Err(StanzaFault::Unreadable(key)),
    }
}
