//! Where in the tree of a machine text something stands, and what stands there.

ghost use Rattle.std.specs.Prelude.{◌≡◌, ◌++◌, string_bytes, IfOk, OnOk};
ghost use Rattle.machine_lint.specs.Spots.{key_of, shown};
ghost use Rattle.machine_lint.specs.inner.Ats.{spot_at, spot_with};
ghost use Rattle.machine_lint.specs.declared.spots.Spot.TheVariants.{TableKey};
ghost use Rattle.machine.specs.MachineText.{path_of};
ghost use Rattle.toml.specs.View.{view};

use machine::{Key, OutOfMemory};
use std::alloc::Global;
use toml::Value;

/// Where in the tree of a machine text a fault is. Elements of arrays are counted from 0.
#[derive(Drop)]
pub enum Spot {
    /// The text as a whole.
    Whole,
    /// A key at the top that means nothing.
    TopKey(Key),
    /// The key `units`.
    Units,
    /// An element of `units`.
    Unit(usize),
    /// The key `registers`.
    Registers,
    /// The key `ops`.
    Ops,
    /// The table of a word in `ops`, which is an opcode or not.
    Table(Key),
    /// A key that means nothing, in the table of a word.
    TableKey(Key, Key),
    /// The key `latency` in the table of a word.
    Latency(Key),
    /// The key `alts` in the table of a word.
    Alternatives(Key),
    /// An element of `alts` in the table of a word.
    Alternative(Key, usize),
    /// A row of an alternative in the table of a word.
    Row(Key, usize, usize),
}

/// What stands in the text where a fault is, if it is short.
#[derive(Drop)]
pub enum Found {
    /// Nothing, or what is none of the others.
    Nothing,
    /// A text.
    Word(Key),
    /// An integer.
    Number(i64),
    /// An array with so many elements.
    Elements(usize),
}

/// Where in the tree something stands that has no fault yet.
#[derive(Clone, Copy)]
pub(crate) enum At<'a> {
    TopKey(&'a str),
    Units,
    Unit(usize),
    Registers,
    Ops,
    Table(&'a str),
    TableKey(&'a str, &'a str),
    Latency(&'a str),
    Alternatives(&'a str),
    Alternative(&'a str, usize),
    Row(&'a str, usize, usize),
}

/// A key with this text.
pub(crate) fn key(alloc: Global, text: &str) -> Result<Key, OutOfMemory>
    ensures { IfOk result (λ key. key ≡ text.now) }
{
    Ok(Key::new(String::from_str(alloc, text)?))
}

/// Appends the path of a key in the table of a word to a text.
fn push_path(text: &mut String, word: &str, dot: &str, name: &str) -> Result<(), OutOfMemory>
    ensures { OnOk result (string_bytes text.new ≡ string_bytes text.old ++ ((path_of word.now ++ dot.now) ++ name.now)) }
{
    text.push_str("ops.")?;
    text.push_str(word)?;
    text.push_str(dot)?;
    text.push_str(name)
}

/// The key of a key in the table of a word, or of the table where the dot and the name are empty.
fn path_key(alloc: Global, word: &str, dot: &str, name: &str) -> Result<Key, OutOfMemory>
    ensures { IfOk result (λ key. key ≡ (path_of word.now ++ dot.now) ++ name.now) }
{
    let mut text = String::new(alloc);
    push_path(&mut text, word, dot, name)?;
    Ok(Key::new(text))
}

/// A key in the table of a word.
fn inner_spot(alloc: Global, word: &str, name: &str) -> Result<Spot, OutOfMemory>
    ensures { IfOk result (λ spot. spot ≡ TableKey word.now name.now) }
{
    let table = key(alloc, word)?;
    Ok(Spot::TableKey(table, key(alloc, name)?))
}

impl<'a> At<'a> {
    /// The same, to be kept, where a key is that of the word, or of the name at the top.
    fn with_key(self, key: Key) -> Spot
        ensures { result ≡ spot_with self.entry key }
    {
        match self {
            At::TopKey(_) => Spot::TopKey(key),
            At::Latency(_) => Spot::Latency(key),
            At::Alternatives(_) => Spot::Alternatives(key),
            At::Alternative(_, index) => Spot::Alternative(key, index),
            At::Row(_, alternative, row) => Spot::Row(key, alternative, row),
            _ => Spot::Table(key),
        }
    }

    /// The same, to be kept.
    pub(crate) fn to_spot(self, alloc: Global) -> Result<Spot, OutOfMemory>
        ensures { IfOk result (λ spot. spot ≡ spot_at self.entry) }
    {
        match self {
            At::Units => Ok(Spot::Units),
            At::Unit(index) => Ok(Spot::Unit(index)),
            At::Registers => Ok(Spot::Registers),
            At::Ops => Ok(Spot::Ops),
            At::TableKey(word, name) => inner_spot(alloc, word, name),
            At::TopKey(word)
            | At::Table(word)
            | At::Latency(word)
            | At::Alternatives(word)
            | At::Alternative(word, _)
            | At::Row(word, _, _) => Ok(self.with_key(key(alloc, word)?)),
        }
    }

    /// The key at which the reader of machine texts tells a fault there.
    pub(crate) fn to_key(self, alloc: Global) -> Result<Key, OutOfMemory>
        ensures { IfOk result (λ key. key ≡ key_of (spot_at self.entry)) }
    {
        match self {
            At::TopKey(name) => key(alloc, name),
            At::Units | At::Unit(_) => key(alloc, "units"),
            At::Registers => key(alloc, "registers"),
            At::Ops => key(alloc, "ops"),
            At::Table(word) => path_key(alloc, word, "", ""),
            At::TableKey(word, name) => path_key(alloc, word, ".", name),
            At::Latency(word) => path_key(alloc, word, ".", "latency"),
            At::Alternatives(word) | At::Alternative(word, _) | At::Row(word, _, _) => {
                path_key(alloc, word, ".", "alts")
            }
        }
    }
}

/// What is shown of a value.
pub(crate) fn shown(alloc: Global, value: &Value) -> Result<Found, OutOfMemory>
    ensures { IfOk result (λ found. found ≡ shown (view value.now)) }
{
    if let Some(text) = value.as_str() {
        return Ok(Found::Word(key(alloc, text)?));
    }
    if let Some(number) = value.as_integer() {
        return Ok(Found::Number(number));
    }
    if let Some(elements) = value.as_array() {
        return Ok(Found::Elements(elements.len()));
    }
    Ok(Found::Nothing)
}
