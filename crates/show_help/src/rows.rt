//! Rows and texts while they are collected. One for which memory is refused is left out, and then none are given at the end: so
//! whoever collects them has no way out of its own for that, at which all that it has so far would end.
use file_help::page::{Row, listed, row_of};
use ps_base::text::Text;
use std::alloc::{AllocError, Global};

fn push_row(alloc: Global, rows: &mut Vec<Row>, key: &str, value: Text) -> Result<(), AllocError> {
    rows.push(row_of(alloc, key, value)?)?;
    Ok(())
}

/// The rows of a section.
pub(crate) struct Rows {
    alloc: Global,
    list: Vec<Row>,
    is_refused: bool,
}

// By hand, so that whoever drops them has one step of its proof for that.
impl Drop for Rows {
    fn drop(self) {
        let Rows {
            alloc: _,
            list: _,
            is_refused: _,
        } = self;
    }
}

impl Rows {
    /// None so far.
    pub(crate) fn new(alloc: Global) -> Rows {
        Rows {
            alloc,
            list: Vec::new(alloc),
            is_refused: false,
        }
    }

    fn push(&mut self, key: &str, value: Text) {
        if push_row(self.alloc, &mut self.list, key, value).is_err() {
            self.is_refused = true;
        }
    }

    /// A row of this key with a value that was made, if memory was there for it.
    pub(crate) fn made(&mut self, key: &str, value: Result<Text, AllocError>) {
        match value {
            Err(_) => self.is_refused = true,
            Ok(value) => self.push(key, value),
        }
    }

    /// The same with a value that was formatted.
    pub(crate) fn formatted(&mut self, key: &str, value: Result<String, AllocError>) {
        match value {
            Err(_) => self.is_refused = true,
            Ok(value) => self.push(key, Text::from_string(value)),
        }
    }

    /// A row of this key with a copy of the value.
    pub(crate) fn text(&mut self, key: &str, value: &str) {
        let copy = Text::copy_of(self.alloc, value);
        self.made(key, copy);
    }

    /// The same with a key that was formatted.
    pub(crate) fn keyed(&mut self, key: Result<String, AllocError>, value: &str) {
        match key {
            Err(_) => self.is_refused = true,
            Ok(key) => self.text(key.as_str(), value),
        }
    }

    /// A row of this key with these names.
    pub(crate) fn listed(&mut self, key: &str, names: &[Text]) {
        let names = listed(self.alloc, names);
        self.made(key, names);
    }

    /// All of them.
    pub(crate) fn into_vec(self) -> Result<Vec<Row>, AllocError> {
        let Rows {
            alloc: _,
            list,
            is_refused,
        } = self;
        if is_refused {
            return Err(AllocError);
        }
        Ok(list)
    }
}

/// A list of texts.
pub(crate) struct Texts {
    alloc: Global,
    list: Vec<Text>,
    is_refused: bool,
}

// By hand, as that of rows.
impl Drop for Texts {
    fn drop(self) {
        let Texts {
            alloc: _,
            list: _,
            is_refused: _,
        } = self;
    }
}

impl Texts {
    /// None so far.
    pub(crate) fn new(alloc: Global) -> Texts {
        Texts {
            alloc,
            list: Vec::new(alloc),
            is_refused: false,
        }
    }

    fn push(&mut self, text: Text) {
        if self.list.push(text).is_err() {
            self.is_refused = true;
        }
    }

    /// A copy of this one.
    pub(crate) fn add(&mut self, text: &str) {
        match Text::copy_of(self.alloc, text) {
            Err(_) => self.is_refused = true,
            Ok(text) => self.push(text),
        }
    }

    /// One that was formatted, if memory was there for it.
    pub(crate) fn formatted(&mut self, text: Result<String, AllocError>) {
        match text {
            Err(_) => self.is_refused = true,
            Ok(text) => self.push(Text::from_string(text)),
        }
    }

    /// Whether there is none so far.
    pub(crate) fn is_empty(&self) -> bool {
        self.list.is_empty()
    }

    /// All of them.
    pub(crate) fn into_vec(self) -> Result<Vec<Text>, AllocError> {
        let Texts {
            alloc: _,
            list,
            is_refused,
        } = self;
        if is_refused {
            return Err(AllocError);
        }
        Ok(list)
    }
}
