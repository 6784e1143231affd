//! Texts that somebody says or whispers.
ghost use Rattle.std.specs.Prelude.{◌≡◌, length};
ghost use Rattle.std.specs.Str.{chars};
ghost use Rattle.ps_lines.specs.SentTexts.{is_blank, is_long};

/// How many characters a text may have.
const LONGEST: usize = 300;

/// Whether a text is of spaces alone.
pub fn is_blank(text: &str) -> bool
    ensures { result ≡ is_blank text.now }
{
    for b in text.as_bytes() {
        if *b != b' ' {
            return false;
        }
    }
    true
}

fn count_of(text: &str) -> usize
    ensures { result ≡ length (chars text.now) }
{
    text.chars().count()
}

/// Whether a text has more than 300 characters.
pub fn is_long(text: &str) -> bool
    ensures { result ≡ is_long text.now }
{
    count_of(text) > LONGEST
}
