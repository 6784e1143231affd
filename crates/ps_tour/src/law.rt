//! Laws over the definitions.
ghost use Rattle.ps_tour.specs.Laws.{LawOfBrackets};

/// Whatever the seed drew, and whoever of each two won: each entrant is beaten exactly once, but for the champion, who never is.
pub fn law_of_brackets()
    ensures { LawOfBrackets }
{}
