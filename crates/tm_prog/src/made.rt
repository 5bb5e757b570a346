//! What a command makes, whole before any of it is put or written.

ghost use Rattle.std.specs.Prelude.{◌≡◌, [], ◌∷◌, IfOk, string_bytes};

use std::alloc::{AllocError, Global};
use std::marker::Model;
use tm_words::Name;

/// The name of a file that a command makes up.
#[derive(Drop)]
pub(crate) struct PutName {
    text: String,
}

impl Model for PutName {
    ghost use Rattle.std.specs.Prelude.{ℕ, List, string_bytes};

    ghost Value = { List ℕ };

    ghost view = { λ name. string_bytes name.text };
}

impl PutName {
    pub(crate) fn new(text: String) -> PutName
        ensures { result ≡ string_bytes text }
    {
        PutName { text }
    }

    pub(crate) fn text(&self) -> &str
        ensures { result.now ≡ self.now }
    {
        self.text.as_str()
    }
}

/// Bytes to put under a name.
#[derive(Drop)]
pub(crate) struct Put<'a> {
    name: &'a str,
    bytes: Vec<u8>,
}

impl<'a> Model for Put<'a> {
    ghost use Rattle.tm_prog.specs.Made.{PutView};

    ghost Value = { PutView };

    ghost view = { λ put. record { name = put.name.now; bytes = put.bytes.items } };
}

impl<'a> Put<'a> {
    pub(crate) fn new(name: &'a Name, bytes: Vec<u8>) -> Put<'a>
        ensures { result ≡ record { name = name.now; bytes = bytes.items } }
    {
        Put {
            name: name.text(),
            bytes,
        }
    }

    /// Under a name that a command made up.
    pub(crate) fn under(name: &'a PutName, bytes: Vec<u8>) -> Put<'a>
        ensures { result ≡ record { name = name.now; bytes = bytes.items } }
    {
        Put {
            name: name.text(),
            bytes,
        }
    }

    pub(crate) fn name(&self) -> &str
        ensures { result.now ≡ self.now.name }
    {
        self.name
    }

    pub(crate) fn bytes(&self) -> &[u8]
        ensures { result.now ≡ self.now.bytes }
    {
        self.bytes.as_slice()
    }
}

/// What is put, in this order, and then a text to write.
#[derive(Drop)]
pub(crate) struct Made<'a> {
    puts: Vec<Put<'a>>,
    text: Vec<u8>,
}

impl<'a> Model for Made<'a> {
    ghost use Rattle.tm_prog.specs.Made.{MadeView};

    ghost Value = { MadeView };

    ghost view = { λ made. record { puts = made.puts.items; text = made.text.items } };
}

impl<'a> Made<'a> {
    pub(crate) fn new(puts: Vec<Put<'a>>, text: Vec<u8>) -> Made<'a>
        ensures { result ≡ record { puts = puts.entry.items; text = text.items } }
    {
        Made { puts, text }
    }

    /// A text alone.
    pub(crate) fn text_alone(alloc: Global, text: Vec<u8>) -> Made<'a>
        ensures { result ≡ record { puts = []; text = text.items } }
    {
        Made {
            puts: Vec::new(alloc),
            text,
        }
    }

    /// One put alone.
    pub(crate) fn put_alone(
        alloc: Global,
        name: &'a Name,
        bytes: Vec<u8>,
    ) -> Result<Made<'a>, AllocError>
        ensures { IfOk result (λ made. made ≡ record { puts = record { name = name.now; bytes = bytes.items } ∷ []; text = [] }) }
    {
        let mut puts = Vec::new(alloc);
        puts.push(Put::new(name, bytes))?;
        Ok(Made {
            puts,
            text: Vec::new(alloc),
        })
    }

    pub(crate) fn puts(&self) -> &[Put<'a>]
        ensures { result.now ≡ self.now.puts }
    {
        self.puts.as_slice()
    }

    pub(crate) fn text(&self) -> &[u8]
        ensures { result.now ≡ self.now.text }
    {
        self.text.as_slice()
    }
}
