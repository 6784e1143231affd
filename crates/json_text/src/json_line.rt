//! A line that ends in JSON.
ghost use Rattle.std.specs.Prelude.{◌≡◌, ◌++◌, ◌∷◌, [], ℕ, List, decimal, IfOk, OnOk, string_bytes};
ghost use Rattle.json.specs.Token.{begin_object, end_object, begin_array, end_array, key, string, number, boolean};
ghost use Rattle.json.specs.Print.{print};
ghost use Rattle.serde_json.specs.Data.{Data};
ghost use Rattle.serde_json.specs.Written.{compact_text};
ghost use Rattle.json_text.specs.Lines.{begun, with_tokens, with_value};

use json::Writer;
use std::alloc::{AllocError, Global};
use std::marker::Model;

/// A line that ends in JSON, while it is written: a text that stands before it, and the tokens of the JSON so far. It places
/// commas and colons; what opens and closes is the caller's to nest. Each call fails only if out of memory.
#[derive(Drop)]
pub struct JsonLine {
    writer: Writer,
}

impl Model for JsonLine {
    ghost use Rattle.std.specs.Str.{IsUtf8};
    ghost use Rattle.json_text.specs.Lines.{Line};

    ghost Value = { Line };

    ghost view = { λ l. record { front = l.writer.before; tokens = l.writer.tokens } };

    ghost invariant = { λ l. IsUtf8 l.writer.before };
}

impl JsonLine {
    /// A line that begins with this text, with room for so many bytes before it grows.
    #[tactic(auto, unfolding(crate::specs::Lines::begun))]
    pub fn new(alloc: Global, front: &str, capacity: usize) -> Result<JsonLine, AllocError>
        ensures { IfOk result (λ line. line ≡ begun front.now) }
    {
        let mut bytes = Vec::with_capacity(alloc, capacity)?;
        bytes.extend_from_slice(front.as_bytes())?;
        Ok(JsonLine {
            writer: Writer::new(bytes),
        })
    }

    /// Opens an object.
    #[tactic(auto, unfolding(crate::specs::Lines::with_tokens))]
    pub fn open_object(&mut self) -> Result<(), AllocError>
        ensures { OnOk result (self.new ≡ with_tokens (begin_object ∷ []) self.old) }
    {
        self.writer.begin_object()
    }

    /// Closes an object.
    #[tactic(auto, unfolding(crate::specs::Lines::with_tokens))]
    pub fn close_object(&mut self) -> Result<(), AllocError>
        ensures { OnOk result (self.new ≡ with_tokens (end_object ∷ []) self.old) }
    {
        self.writer.end_object()
    }

    /// Opens an array.
    #[tactic(auto, unfolding(crate::specs::Lines::with_tokens))]
    pub fn open_array(&mut self) -> Result<(), AllocError>
        ensures { OnOk result (self.new ≡ with_tokens (begin_array ∷ []) self.old) }
    {
        self.writer.begin_array()
    }

    /// Closes an array.
    #[tactic(auto, unfolding(crate::specs::Lines::with_tokens))]
    pub fn close_array(&mut self) -> Result<(), AllocError>
        ensures { OnOk result (self.new ≡ with_tokens (end_array ∷ []) self.old) }
    {
        self.writer.end_array()
    }

    /// The key of a member, whose value comes next.
    #[tactic(auto, unfolding(crate::specs::Lines::with_tokens))]
    pub fn key(&mut self, name: &str) -> Result<(), AllocError>
        ensures { OnOk result (self.new ≡ with_tokens (key name.now ∷ []) self.old) }
    {
        self.writer.key(name)
    }

    /// A text, in quotes.
    #[tactic(auto, unfolding(crate::specs::Lines::with_tokens))]
    pub fn text(&mut self, text: &str) -> Result<(), AllocError>
        ensures { OnOk result (self.new ≡ with_tokens (string text.now ∷ []) self.old) }
    {
        self.writer.string(text)
    }

    /// A number.
    #[tactic(auto, unfolding(crate::specs::Lines::with_tokens))]
    pub fn count(&mut self, count: u64) -> Result<(), AllocError>
        ensures { OnOk result (self.new ≡ with_tokens (number (decimal count) ∷ []) self.old) }
    {
        self.writer.u64(count)
    }

    /// `true` or `false`.
    #[tactic(auto, unfolding(crate::specs::Lines::with_tokens))]
    pub fn boolean(&mut self, value: bool) -> Result<(), AllocError>
        ensures { OnOk result (self.new ≡ with_tokens (boolean value ∷ []) self.old) }
    {
        self.writer.boolean(value)
    }

    /// A member whose value is a text.
    #[tactic(auto, using(crate::proofs::LineLemmas::joined))]
    pub fn text_member(&mut self, name: &str, text: &str) -> Result<(), AllocError>
        ensures { OnOk result (self.new ≡ with_tokens (key name.now ∷ string text.now ∷ []) self.old) }
    {
        self.key(name)?;
        self.text(text)
    }

    /// A member whose value is a number.
    #[tactic(auto, using(crate::proofs::LineLemmas::joined))]
    pub fn count_member(&mut self, name: &str, count: u64) -> Result<(), AllocError>
        ensures { OnOk result (self.new ≡ with_tokens (key name.now ∷ number (decimal count) ∷ []) self.old) }
    {
        self.key(name)?;
        self.count(count)
    }

    /// A member whose value is `true` or `false`.
    #[tactic(auto, using(crate::proofs::LineLemmas::joined))]
    pub fn boolean_member(&mut self, name: &str, value: bool) -> Result<(), AllocError>
        ensures { OnOk result (self.new ≡ with_tokens (key name.now ∷ boolean value ∷ []) self.old) }
    {
        self.key(name)?;
        self.boolean(value)
    }

    /// The line as it stands: behind the text that it begins with the JSON without spaces, which is the compact text of a value
    /// whose tokens were written.
    pub fn into_string(self) -> String
        ensures bytes { string_bytes result ≡ self.front ++ print self.tokens }
        ensures text { (front : List ℕ) (value : Data) → self ≡ with_value value (begun front)
            → string_bytes result ≡ front ++ compact_text value }
    {
        match String::from_utf8(self.writer.into_inner()) {
            Ok(line) => line,
            Err(_) => unreachable!(),
        }
    }
}
