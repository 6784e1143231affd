//! The name that a misspelt one may have been meant for.

/// How many bytes are the same at the fronts of both texts, whatever their case.
fn common_front(a: &[u8], b: &[u8]) -> usize {
    for i in 0..a.len() {
        if i >= b.len() || !a[i].eq_ignore_ascii_case(&b[i]) {
            return i;
        }
    }
    a.len()
}

/// How many bytes are the same at the ends of both texts, whatever their case.
fn common_back(a: &[u8], b: &[u8]) -> usize {
    for i in 0..a.len() {
        if i >= b.len() || !a[a.len() - 1 - i].eq_ignore_ascii_case(&b[b.len() - 1 - i]) {
            return i;
        }
    }
    a.len()
}

/// How much the texts have in common: bytes of their fronts and of their ends.
fn likeness(a: &[u8], b: &[u8]) -> usize {
    let most = a.len().min(b.len());
    common_front(a, b)
        .saturating_add(common_back(a, b))
        .min(most)
}

/// Whether the texts have at least half of their bytes in common.
pub fn is_near(a: &[u8], b: &[u8]) -> bool {
    let longer = a.len().max(b.len());
    longer > 0 && likeness(a, b).saturating_mul(2) >= longer
}

/// The name that is most like a word, if one has at least half in common with it; the first of several.
pub fn nearest<'a>(word: &str, names: &[&'a str]) -> Option<&'a str> {
    let mut best = None;
    let mut most = 0;
    for name in names {
        let like = likeness(word.as_bytes(), name.as_bytes());
        if like > most && is_near(word.as_bytes(), name.as_bytes()) {
            most = like;
            best = Some(*name);
        }
    }
    best
}
