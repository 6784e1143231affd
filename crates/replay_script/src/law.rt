//! Laws over the definitions.
ghost use Rattle.std.specs.Prelude.{◌≡◌, ◌⊎◌, ℕ, List};
ghost use Rattle.replay_script.specs.Laws.{LawOfScripts};
ghost use Rattle.replay_script.specs.Scripts.{IsFirstFault, IsScript};
ghost use Rattle.replay_script.specs.declared.item.Item.{Item};
ghost use Rattle.replay_script.specs.declared.script.ScriptKind.{ScriptKind};

/// Whatever symbols groups have, a text is one script at most, and none where it has a first fault.
pub fn law_of_scripts()
    ensures { LawOfScripts }
{}

/// Whatever symbols groups have, a text is a script or has a first fault, and it has one first fault at
/// most.
pub fn law_of_faults()
    ensures one { (symbols bytes : List ℕ) (line other_line : ℕ) (kind other_kind : ScriptKind) → IsFirstFault symbols bytes line kind
        → IsFirstFault symbols bytes other_line other_kind → (line ≡ other_line) × (kind ≡ other_kind) }
    ensures some { (symbols bytes : List ℕ) → ((items : List Item) × IsScript symbols bytes items)
        ⊎ ((line : ℕ) × (kind : ScriptKind) × IsFirstFault symbols bytes line kind) }
{}
