//! A text that contracts see as the list of its bytes.
ghost use Rattle.std.specs.Prelude.{◌≡◌, ◌++◌, ◌∷◌, [], length, Some, IfOk, OnOk, OnErr, string_bytes};
ghost use Rattle.std.specs.Str.{IsUtf8};
ghost use Rattle.ps_base.specs.Texts.{bytes_of};

use crate::list::List;
use std::alloc::{AllocError, Global};
use std::fmt;
use std::marker::Model;
use std::sync::ArcStr;

/// A text, whose bytes are UTF-8: its own, or shared with its copies. Contracts see it as the list of its bytes, so a
/// definition can compute one, as it can't a `String`.
#[derive(Debug)]
pub struct Text {
    inner: Bytes,
}

// Whose the bytes of a text are.
#[derive(Debug)]
enum Bytes {
    // This text's alone.
    Own(String),
    // Those of all copies that were made since they are shared.
    Shared { text: ArcStr, alloc: Global },
}

// By hand, so that who drops a text has one call to prove.
impl Drop for Text {
    fn drop(self) {
        let Text { inner: _ } = self;
    }
}

impl Drop for Bytes {
    fn drop(self) {
        match self {
            Bytes::Own(_) => {}
            Bytes::Shared { text: _, alloc: _ } => {}
        }
    }
}

impl Bytes {
    // The same bytes. Takes no memory where they are this text's alone.
    fn into_string(self) -> Result<String, AllocError>
        ensures { IfOk result (λ s. string_bytes s ≡ bytes_of self) }
    {
        match self {
            Bytes::Own(text) => Ok(text),
            Bytes::Shared { text, alloc } => String::from_str(alloc, text.as_str()),
        }
    }
}

impl Model for Text {
    ghost use Rattle.std.specs.Prelude.{ℕ, List};
    ghost use Rattle.ps_base.specs.Texts.{bytes_of};

    ghost Value = { List ℕ };

    ghost view = { λ t. bytes_of t.inner };
}

impl Text {
    /// The empty text. Takes no memory.
    pub fn new(alloc: Global) -> Text
        ensures { result ≡ [] }
    {
        Text {
            inner: Bytes::Own(String::new(alloc)),
        }
    }

    /// The empty text, with room for so many bytes.
    pub fn with_capacity(alloc: Global, capacity: usize) -> Result<Text, AllocError>
        ensures { IfOk result (λ t. t ≡ []) }
    {
        Ok(Text {
            inner: Bytes::Own(String::with_capacity(alloc, capacity)?),
        })
    }

    /// The same bytes. Takes no memory.
    pub fn from_string(inner: String) -> Text
        ensures { result ≡ string_bytes inner }
    {
        Text {
            inner: Bytes::Own(inner),
        }
    }

    /// A text with a copy of these bytes.
    pub fn copy_of(alloc: Global, text: &str) -> Result<Text, AllocError>
        ensures { IfOk result (λ t. t ≡ text.now) }
    {
        Ok(Text {
            inner: Bytes::Own(String::from_str(alloc, text)?),
        })
    }

    /// The bytes as a `&str`.
    pub fn as_str(&self) -> &str
        ensures value { result.now ≡ self.now }
        ensures utf8 { IsUtf8 self.now }
    {
        match &self.inner {
            Bytes::Own(text) => text.as_str(),
            Bytes::Shared { text, alloc: _ } => text.as_str(),
        }
    }

    /// The same bytes. Takes no memory where they are its own.
    pub fn into_string(self) -> Result<String, AllocError>
        ensures { IfOk result (λ s. string_bytes s ≡ self) }
    {
        let Text { inner } = self;
        inner.into_string()
    }

    /// The number of bytes.
    pub fn len(&self) -> usize
        ensures { result ≡ length self.now }
    {
        self.as_str().len()
    }

    /// Shares its bytes with the copies that are made from now on, which then take no memory. Where memory fails they stay its own.
    pub fn share(&mut self, alloc: Global)
        ensures { self.new ≡ self.old }
    {
        match &self.inner {
            Bytes::Shared { .. } => {}
            Bytes::Own(text) => match ArcStr::from_str(alloc, text.as_str()) {
                Ok(text) => self.inner = Bytes::Shared { text, alloc },
                Err(_) => {}
            },
        }
    }

    /// Puts a text behind this one. Where memory fails nothing changes.
    pub fn push_str(&mut self, text: &str) -> Result<(), AllocError>
        ensures ok { OnOk result (self.new ≡ self.old ++ text.now) }
        ensures err { OnErr result (self.new ≡ self.old) }
    {
        match &mut self.inner {
            Bytes::Own(own) => own.push_str(text),
            Bytes::Shared {
                text: shared,
                alloc,
            } => {
                let mut own = String::from_str(*alloc, shared.as_str())?;
                own.push_str(text)?;
                self.inner = Bytes::Own(own);
                Ok(())
            }
        }
    }

    /// A text with the same bytes. Takes no memory where they are shared.
    pub fn copy(&self, alloc: Global) -> Result<Text, AllocError>
        ensures { IfOk result (λ t. t ≡ self.now) }
    {
        match &self.inner {
            Bytes::Own(text) => Text::copy_of(alloc, text.as_str()),
            Bytes::Shared { text, alloc } => Ok(Text {
                inner: Bytes::Shared {
                    text: text.clone()?,
                    alloc: *alloc,
                },
            }),
        }
    }
}

impl fmt::Display for Text {
    ghost output = { λ t. Some t };

    fn fmt<W: fmt::Write>(&self, f: &mut fmt::Formatter<W>) -> fmt::Result {
        f.write_str(self.as_str())
    }
}

/// Puts a copy of a text after the others.
pub fn push_copy(alloc: Global, texts: &mut Vec<Text>, text: &Text) -> Result<(), AllocError>
    ensures { OnOk result (texts.new.items ≡ texts.old.items ++ text.now ∷ []) }
{
    let copy = text.copy(alloc)?;
    texts.push(copy)?;
    Ok(())
}

/// Puts copies of texts after the others, in their order.
pub fn push_copies(alloc: Global, texts: &mut Vec<Text>, more: &[Text]) -> Result<(), AllocError>
    ensures { OnOk result (texts.new.items ≡ texts.old.items ++ more.now) }
{
    for text in more {
        push_copy(alloc, texts, text)?;
    }
    Ok(())
}

/// Copies of texts.
pub fn copies(alloc: Global, texts: &[Text]) -> Result<List<Text>, AllocError>
    ensures { IfOk result (λ l. l ≡ texts.now) }
{
    let mut copies = Vec::with_capacity(alloc, texts.len())?;
    push_copies(alloc, &mut copies, texts)?;
    Ok(List::from_vec(copies))
}
