//! The lines of a script, each with its text where the script has it.
ghost use Rattle.std.specs.Prelude.{◌≡◌, ◌++◌, ◌∷◌, [], true, IfOk, OnOk};
ghost use Rattle.replay_script.specs.Cleans.{SendsClean};
ghost use Rattle.replay_script.specs.Sayings.{item_of};

use crate::item::Item;
use ps_base::number::ConnNo;
use std::alloc::{AllocError, Global};
use std::marker::Model;

/// What a line of a script says, as `Item` does, but with a text or an id that is lent: it takes no memory of its own.
#[derive(Clone, Copy)]
pub enum Said<'a> {
    /// An empty line, or a comment.
    Nothing,
    /// `T N`: the moment is N seconds from here on.
    Moment(u32),
    /// `G SYMBOL ID`: the id has the group of that symbol.
    Group(char, &'a str),
    /// `+N`: a connection opens.
    Open(ConnNo),
    /// `>N TEXT`: a connection sends a text.
    Send(ConnNo, &'a str),
    /// `-N`: a connection closes.
    Close(ConnNo),
}

// The same without its text, in eight bytes.
#[derive(Clone, Copy)]
enum Form {
    Nothing,
    Moment(u32),
    Group(char),
    Open(ConnNo),
    Send(ConnNo),
    // A form of its own, since a flag beside it would take bytes.
    SendClean(ConnNo),
    Close(ConnNo),
}

/// A line of a script. Contracts see what it says, whoever has its text. One that was read knows that the text that it sends
/// is clean: at most 8,192 bytes, none of them below 0x20, and none 0x7F. It takes 24 bytes.
#[derive(Drop)]
pub struct Line<'a> {
    form: Form,
    text: &'a str,
}

impl<'a> Model for Line<'a> {
    ghost use Rattle.replay_script.specs.declared.item.Item.{Item};
    ghost use Rattle.replay_script.specs.Cleans.{IsAsFormed};
    ghost use Rattle.replay_script.specs.Sayings.{item_by};

    ghost Value = { Item };

    ghost view = { λ l. item_by l.form l.text.now };

    ghost invariant = { λ l. IsAsFormed l.form l.text.now };
}

impl<'a> Line<'a> {
    /// A line that says this. It doesn't know its text to be clean.
    pub fn new(said: Said<'a>) -> Line<'a>
        ensures { result ≡ item_of said.entry }
    {
        match said {
            Said::Nothing => Line {
                form: Form::Nothing,
                text: "",
            },
            Said::Moment(n) => Line {
                form: Form::Moment(n),
                text: "",
            },
            Said::Group(symbol, id) => Line {
                form: Form::Group(symbol),
                text: id,
            },
            Said::Open(n) => Line {
                form: Form::Open(n),
                text: "",
            },
            Said::Send(n, text) => Line {
                form: Form::Send(n),
                text,
            },
            Said::Close(n) => Line {
                form: Form::Close(n),
                text: "",
            },
        }
    }

    /// What it says.
    pub fn said(&self) -> Said<'a>
        ensures { item_of result ≡ self.now }
    {
        match self.form {
            Form::Nothing => Said::Nothing,
            Form::Moment(n) => Said::Moment(n),
            Form::Group(symbol) => Said::Group(symbol, self.text),
            Form::Open(n) => Said::Open(n),
            Form::Send(n) => Said::Send(n, self.text),
            Form::SendClean(n) => Said::Send(n, self.text),
            Form::Close(n) => Said::Close(n),
        }
    }

    /// Whether the text that it sends is known to be clean: at most 8,192 bytes, none of them below 0x20, and none 0x7F. The
    /// text isn't looked at for that. A line that was made of an item, and not read, may answer false of any text.
    pub fn is_clean(&self) -> bool
        ensures { result ≡ true → SendsClean self.now }
    {
        match self.form {
            Form::SendClean(_) => true,
            _ => false,
        }
    }

    /// The same line, which knows that the text that it sends is clean.
    pub(crate) fn known_clean(&self) -> Line<'a>
        requires { SendsClean self.now }
        ensures { result ≡ self.now }
    {
        match self.form {
            Form::Send(n) => Line {
                form: Form::SendClean(n),
                text: self.text,
            },
            _ => Line {
                form: self.form,
                text: self.text,
            },
        }
    }
}

/// The line that says what an item does.
pub fn line_of(item: &Item) -> Line<'_>
    ensures { result ≡ item.now }
{
    match item {
        Item::Nothing => Line::new(Said::Nothing),
        Item::Moment(n) => Line::new(Said::Moment(*n)),
        Item::Group(symbol, id) => Line::new(Said::Group(*symbol, id.as_str())),
        Item::Open(n) => Line::new(Said::Open(*n)),
        Item::Send(n, text) => Line::new(Said::Send(*n, text.as_str())),
        Item::Close(n) => Line::new(Said::Close(*n)),
    }
}

/// The lines that say what items do.
pub fn lines_of(alloc: Global, items: &[Item]) -> Result<Vec<Line<'_>>, AllocError>
    ensures { IfOk result (λ v. v.items ≡ items.now) }
{
    let mut lines = Vec::new(alloc);
    for item in items {
        lines.push(line_of(item))?;
    }
    Ok(lines)
}
