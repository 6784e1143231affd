//! Marks, one for each item of a list.
use std::alloc::{AllocError, Global};

/// So many marks, none of them set.
pub(crate) fn no_marks(alloc: Global, count: usize) -> Result<Vec<bool>, AllocError> {
    let mut marks = Vec::new(alloc);
    for _ in 0..count {
        marks.push(false)?;
    }
    Ok(marks)
}

pub(crate) fn set_mark(marks: &mut [bool], number: Option<u16>) {
    if let Some(number) = number {
        if let Some(mark) = marks.get_mut(usize::from(number)) {
            *mark = true;
        }
    }
}
