//! Group trees, the data of a Liberty text.

ghost use Rattle.std.specs.Prelude.{◌≡◌};

use crate::values::{Arguments, Values};
use small_bytes::{MarkedBytes, SmallBytes};
use small_lists::{Placed, SmallList};
use std::marker::Model;
use std::mem::size_of;

/// A value of a statement or an argument: a Word, or what a quoted text stands for. Contracts see its bytes, and whether it stood
/// between double quotes.
#[derive(Drop)]
pub struct Value {
    text: MarkedBytes,
}

impl Model for Value {
    ghost use Rattle.liberty_groups.specs.Text.{Text};

    ghost Value = { Text };

    ghost view = { λ value. record { bytes = value.text.bytes; quoted = value.text.is_marked } };
}

impl Value {
    /// A value of these bytes.
    pub fn new(bytes: SmallBytes, quoted: bool) -> Value
        ensures { result ≡ record { bytes = bytes; quoted = quoted } }
    {
        Value {
            text: MarkedBytes::new(bytes, quoted),
        }
    }

    /// Its bytes.
    #[inline(always)]
    pub fn bytes(&self) -> &[u8]
        ensures { result.now ≡ self.now.bytes }
    {
        self.text.as_slice()
    }

    /// Whether it stood between double quotes.
    pub fn is_quoted(&self) -> bool
        ensures { result ≡ self.now.quoted }
    {
        self.text.is_marked()
    }

    /// Its bytes alone.
    pub fn into_bytes(self) -> SmallBytes
        ensures { result ≡ self.bytes }
    {
        let Value { text } = self;
        text.into_bytes()
    }
}

/// A group, `name (arguments) { items }`.
#[cycle(group)]
pub struct Group {
    pub name: SmallBytes,
    pub arguments: Arguments,
    /// The statements between the braces, in order. Empty statements leave nothing.
    pub items: SmallList<Item>,
    /// The offset of the first byte of its name.
    pub at: usize,
}

/// A statement of a group. `at` is the offset of the first byte of its name.
#[cycle(group)]
#[derive(Drop)]
pub enum Item {
    /// A simple attribute, `name : value`. Of the value the Words and texts are kept.
    Simple {
        name: SmallBytes,
        value: Values,
        at: usize,
    },
    /// A complex attribute, `name (arguments)`.
    Complex {
        name: SmallBytes,
        arguments: Values,
        at: usize,
    },
    Inner(Group),
}

// Written out, so that crates that let statements go have no cycle of calls of their own.
impl Drop for Group {
    #[cycle(group)]
    fn drop(self) {
        let Group {
            name: _name,
            arguments: _arguments,
            items: _items,
            at: _,
        } = self;
    }
}

impl Placed for Item {
    ghost use Rattle.std.proofs.Common.{rules};

    ghost fit = { Prim.search rules };
}

// A cell of statements of three bytes each is held in 19 times its text.
const _: () = prove!(size_of::<Item>() == 56);
