//! Kinds of fault of packed teams.
ghost use Rattle.std.specs.Prelude.{◌≡◌};
ghost use Rattle.ps_base.specs.PackKinds.{pack_kind_name};

/// What is wrong with a text that is no packed team (TEAMS.md of the simulator), at its fault's offset.
#[derive(Clone, Copy, Debug, PartialEq, Eq)]
pub enum PackKind {
    /// A `]`, the end or a twelfth bar stands out of place.
    Bars,
    /// EVs, gender, IVs, the shiny mark or the level aren't of their form.
    Number,
    /// A fifth move or a seventh set.
    Count,
    /// The set has neither a nickname nor a species.
    EmptySet,
    /// A text is too long, or has a control character.
    Text,
    /// The whole is longer than 4,096 bytes.
    Long,
}

impl PackKind {
    /// The name of the kind, as a line gives it.
    pub fn name(self) -> &'static str
        ensures { result.now ≡ pack_kind_name self }
    {
        match self {
            PackKind::Bars => "Bars",
            PackKind::Number => "Number",
            PackKind::Count => "Count",
            PackKind::EmptySet => "EmptySet",
            PackKind::Text => "Text",
            PackKind::Long => "Long",
        }
    }
}
