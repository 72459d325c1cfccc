//! Names and texts, in place.

ghost use Rattle.std.specs.Prelude.{◌≡◌, ◌≤◌, [], length, true, IfSome, IfNone, false};
ghost use Rattle.std.specs.List.{list_all};
ghost use Rattle.so_scene.specs.Words.{is_name, is_text, is_name_byte, is_text_byte};

use arrayvec::ArrayVec;
use std::marker::Model;

/// A name: 1 to 32 letters, digits and underscores.
#[derive(Drop)]
pub struct Name {
    held: ArrayVec<u8, 32>,
}

impl Model for Name {
    ghost use Rattle.std.specs.Prelude.{◌≤◌, ℕ, List, length};

    ghost Value = { List ℕ };

    ghost view = { λ name. name.held.items };

    ghost invariant = { λ name. length name.held.items ≤ 32 };
}

impl Name {
    /// The name that a text is, `None` exactly where it is none.
    pub fn of(text: &str) -> Option<Name>
        ensures some { IfSome result (λ name. (name ≡ text.now) × (is_name text.now ≡ true)) }
        ensures none { IfNone result (is_name text.now ≡ false) }
    {
        let bytes = text.as_bytes();
        if !is_name(bytes) {
            return None;
        }
        let mut held = ArrayVec::new();
        match held.try_extend_from_slice(bytes) {
            Ok(()) => Some(Name { held }),
            Err(_) => unreachable!(),
        }
    }

    /// No bytes, for what has no name.
    pub fn none() -> Name
        ensures { result ≡ [] }
    {
        Name {
            held: ArrayVec::new(),
        }
    }

    /// The same name.
    pub fn copy(&self) -> Name
        ensures { result ≡ self.now }
    {
        let mut held = ArrayVec::new();
        match held.try_extend_from_slice(self.held.as_slice()) {
            Ok(()) => Name { held },
            Err(_) => unreachable!(),
        }
    }

    /// Its bytes.
    pub fn bytes(&self) -> &[u8]
        ensures value { result.now ≡ self.now }
        ensures short { length result.now ≤ 32 }
    {
        self.held.as_slice()
    }
}

/// A text that a log act prints: up to 64 bytes from space to tilde.
#[derive(Drop)]
pub struct Text {
    held: ArrayVec<u8, 64>,
}

impl Model for Text {
    ghost use Rattle.std.specs.Prelude.{◌≤◌, ℕ, List, length};

    ghost Value = { List ℕ };

    ghost view = { λ text. text.held.items };

    ghost invariant = { λ text. length text.held.items ≤ 64 };
}

impl Text {
    /// The text of these bytes, `None` exactly where they are none.
    pub fn of(text: &str) -> Option<Text>
        ensures some { IfSome result (λ t. (t ≡ text.now) × (is_text text.now ≡ true)) }
        ensures none { IfNone result (is_text text.now ≡ false) }
    {
        let bytes = text.as_bytes();
        if !is_text(bytes) {
            return None;
        }
        let mut held = ArrayVec::new();
        match held.try_extend_from_slice(bytes) {
            Ok(()) => Some(Text { held }),
            Err(_) => unreachable!(),
        }
    }

    /// Its bytes.
    pub fn bytes(&self) -> &[u8]
        ensures value { result.now ≡ self.now }
        ensures short { length result.now ≤ 64 }
    {
        self.held.as_slice()
    }
}

/// Tells whether bytes are a name.
pub fn is_name(bytes: &[u8]) -> bool
    ensures { result ≡ is_name bytes.now }
{
    if bytes.is_empty() || bytes.len() > 32 {
        return false;
    }
    are_name_bytes(bytes)
}

fn are_name_bytes(bytes: &[u8]) -> bool
    ensures { result ≡ list_all is_name_byte bytes.now }
{
    bytes.iter().all(|byte| is_name_byte(*byte))
}

fn is_name_byte(byte: u8) -> bool
    ensures { result ≡ is_name_byte byte }
{
    matches!(byte, b'0'..=b'9' | b'A'..=b'Z' | b'a'..=b'z' | b'_')
}

/// Tells whether bytes are a text.
pub fn is_text(bytes: &[u8]) -> bool
    ensures { result ≡ is_text bytes.now }
{
    if bytes.len() > 64 {
        return false;
    }
    are_text_bytes(bytes)
}

fn are_text_bytes(bytes: &[u8]) -> bool
    ensures { result ≡ list_all is_text_byte bytes.now }
{
    bytes.iter().all(|byte| is_text_byte(*byte))
}

fn is_text_byte(byte: u8) -> bool
    ensures { result ≡ is_text_byte byte }
{
    0x20 <= byte && byte <= 0x7e
}
