//! Commands for letters, fonts and signs.

ghost use Rattle.std.specs.Prelude.{◌≡◌, ◌≤◌, drop, length, take};
ghost use Rattle.std.specs.Option.{option_and_then};
ghost use Rattle.text_model.specs.Texts.{texts_of};
ghost use Rattle.latex_text.specs.Commands as spec;

use crate::bases::{Base, base_of};
use crate::letters;

/// A command without its backslash.
#[derive(Clone, Copy)]
pub(crate) struct Command {
    /// How many bytes it has.
    pub(crate) len: usize,
    /// What it denotes.
    pub(crate) character: Option<char>,
}

fn others(characters: &[char]) -> &[char]
    ensures { result.now ≡ drop 1 characters.now }
{
    match characters {
        [] => characters,
        [_, others @ ..] => others,
    }
}

fn is_named(listed: &str, name: &[u8]) -> bool
    ensures { result ≡ spec.is_name listed.now name.now }
{
    listed.as_bytes() == name
}

/// The character that is at the place of its name.
fn listed(names: &[&str], characters: &[char], name: &[u8]) -> Option<char>
    ensures { result ≡ spec.listed (texts_of names.now) characters.now name.now }
{
    let mut rest = characters;
    for other in names {
        if is_named(other, name) {
            return rest.first().copied();
        }
        rest = others(rest);
    }
    None
}

/// A letter with an accent.
#[tactic(auto, unfolding(crate::specs::Commands::composed))]
fn composed(accent: u8, letter: u8) -> Option<char>
    ensures { result ≡ spec.composed accent letter }
{
    let name = [accent, letter];
    if accent.is_ascii_alphabetic() {
        listed(
            letters::letter_accents_names(),
            letters::letter_accents_characters(),
            &name,
        )
    } else {
        listed(
            letters::sign_accents_names(),
            letters::sign_accents_characters(),
            &name,
        )
    }
}

/// The letter of this name.
#[tactic(auto, unfolding(crate::specs::Commands::letter_named))]
fn letter_named(name: &[u8]) -> Option<char>
    ensures { result ≡ spec.letter_named name.now }
{
    listed(
        letters::letters_names(),
        letters::letters_characters(),
        name,
    )
}

fn begins(mark: u8, text: &[u8]) -> bool
    ensures { result ≡ spec.begins mark text.now }
{
    match text {
        [] => false,
        [first, ..] => *first == mark,
    }
}

/// An accent with its letter, which has that many bytes beside the letter.
fn of_letter(accent: u8, others: usize, base: Base) -> Option<Command>
    requires others_small { others ≤ 3 }
    requires base_small { base.len ≤ 2 }
    ensures { result ≡ spec.of_letter accent others base }
{
    let character = composed(accent, base.letter)?;
    Some(Command {
        len: base.len + others,
        character: Some(character),
    })
}

/// An accent with the letter that a text begins with.
fn with_letter(accent: u8, others: usize, text: &[u8]) -> Option<Command>
    requires { others ≤ 3 }
    ensures { result ≡ option_and_then (spec.of_letter accent others) (spec.base_of text.now) }
{
    of_letter(accent, others, base_of(text)?)
}

/// An accent whose letter is in braces; the text is after the first one.
fn braced_letter(accent: u8, text: &[u8], base: Base) -> Option<Command>
    requires { base.len ≤ 2 }
    ensures { result ≡ spec.braced_letter accent text.now base }
{
    if begins(b'}', text.split_at(base.len.min(text.len())).1) {
        of_letter(accent, 3, base)
    } else {
        None
    }
}

fn in_braces(accent: u8, text: &[u8]) -> Option<Command>
    ensures { result ≡ option_and_then (spec.braced_letter accent text.now) (spec.base_of text.now) }
{
    braced_letter(accent, text, base_of(text)?)
}

/// An accent by what is after it.
fn argument(accent: u8, text: &[u8]) -> Option<Command>
    ensures { result ≡ spec.argument accent text.now }
{
    match text {
        [] => None,
        [b'{', letter @ ..] => in_braces(accent, letter),
        [b' ', letter @ ..] => with_letter(accent, 2, letter),
        _ if accent.is_ascii_alphabetic() => None,
        _ => with_letter(accent, 1, text),
    }
}

fn accent(text: &[u8]) -> Option<Command>
    ensures { result ≡ spec.accent text.now }
{
    match text {
        [] => None,
        [accent, rest @ ..] => argument(*accent, rest),
    }
}

/// How many letters a command's name has.
fn name_len(text: &[u8]) -> usize
    ensures value { result ≡ spec.name_length text.now }
    ensures within { result ≤ length text.now }
{
    for (at, byte) in text.iter().enumerate() {
        if !byte.is_ascii_alphabetic() {
            return at;
        }
    }
    text.len()
}

/// How many bytes are in the space that ends a name.
fn space_len(text: &[u8]) -> usize
    ensures value { result ≡ spec.space_length text.now }
    ensures bound { result ≤ 1 }
{
    if begins(b' ', text) { 1 } else { 0 }
}

fn is_one_of(names: &[&str], name: &[u8]) -> bool
    ensures { result ≡ spec.is_one_of (texts_of names.now) name.now }
{
    for other in names {
        if is_named(other, name) {
            return true;
        }
    }
    false
}

/// Whether a command changes the font of the rest of its group.
#[tactic(auto, unfolding(crate::specs::Commands::is_font_change))]
fn is_font_change(name: &[u8]) -> bool
    ensures { result ≡ spec.is_font_change name.now }
{
    is_one_of(&["it", "bf", "em", "sc", "rm", "sl"], name)
}

/// Whether a command is for the font of its argument.
#[tactic(auto, unfolding(crate::specs::Commands::is_font))]
fn is_font(name: &[u8]) -> bool
    ensures { result ≡ spec.is_font name.now }
{
    is_one_of(
        &[
            "emph",
            "textit",
            "textbf",
            "textsc",
            "textrm",
            "textsl",
            "texttt",
            "textsf",
            "textup",
            "textmd",
            "textsubscript",
            "textsuperscript",
        ],
        name,
    )
}

/// A letter, or a font, by its name and what is after it.
fn named_with(name: &[u8], rest: &[u8]) -> Option<Command>
    ensures { result ≡ spec.named_with name.now rest.now (length name.now) (spec.letter_named name.now) }
{
    let len = name.len() + space_len(rest);
    if let Some(character) = letter_named(name) {
        return Some(Command {
            len,
            character: Some(character),
        });
    }
    if is_font_change(name) {
        return Some(Command {
            len,
            character: None,
        });
    }
    if is_font(name) && begins(b'{', rest) {
        return Some(Command {
            len: name.len(),
            character: None,
        });
    }
    None
}

fn named(text: &[u8]) -> Option<Command>
    ensures { result ≡ spec.named text.now }
{
    let (name, rest) = text.split_at(name_len(text));
    named_with(name, rest)
}

fn is_reserved(byte: u8) -> bool
    ensures { result ≡ spec.is_reserved byte }
{
    matches!(byte, b'&' | b'%' | b'#' | b'_')
}

/// Whether a text has neither commands nor groups.
fn is_plain(text: &[u8]) -> bool
    ensures { result ≡ spec.is_plain text.now }
{
    for byte in text {
        if *byte == b'\\' || *byte == b'{' {
            return false;
        }
    }
    true
}

fn reserved(text: &[u8]) -> Option<Command>
    ensures { result ≡ spec.reserved text.now }
{
    match text {
        [] => None,
        [first, rest @ ..] => {
            if is_reserved(*first) || *first == b'$' && is_plain(rest) {
                Some(Command {
                    len: 1,
                    character: Some(char::from(*first)),
                })
            } else {
                None
            }
        }
    }
}

/// Whether a text begins with an apostrophe and a capital letter.
fn is_quoted(text: &[u8]) -> bool
    ensures { result ≡ spec.is_quoted text.now }
{
    match text {
        [b'\'', second, ..] => second.is_ascii_uppercase(),
        _ => false,
    }
}

fn apostrophe(is_one: bool) -> Option<Command>
    ensures { result ≡ spec.apostrophe is_one }
{
    if is_one {
        Some(Command {
            len: 1,
            character: Some('\''),
        })
    } else {
        None
    }
}

/// The command of which a text is what is after its backslash.
#[tactic(auto, unfolding(crate::specs::Commands::command_of))]
pub(crate) fn command_of(follows_initial: bool, text: &[u8]) -> Option<Command>
    ensures { result ≡ spec.command_of follows_initial text.now }
{
    if let Some(command) = apostrophe(follows_initial && is_quoted(text)) {
        return Some(command);
    }
    if let Some(command) = accent(text) {
        return Some(command);
    }
    if let Some(command) = named(text) {
        return Some(command);
    }
    if let Some(command) = reserved(text) {
        return Some(command);
    }
    apostrophe(is_quoted(text))
}
