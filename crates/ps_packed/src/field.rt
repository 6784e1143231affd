//! The fields of a set.
ghost use Rattle.std.specs.Prelude.{◌≡◌, ◌+◌, ◌-◌, ◌<◌, ◌==◌, nat_lt, true, false, if◌then◌else◌};
ghost use Rattle.ps_packed.specs.Forms.{last, form_of};
ghost use Rattle.ps_packed.specs.Packed.{is_numeric};
ghost use Rattle.ps_packed.specs.Fields.{field_index};

/// The fields of a set, in the order of its text.
#[derive(Clone, Copy, Debug, PartialEq, Eq)]
pub enum Field {
    Nick,
    Species,
    Item,
    Ability,
    Moves,
    Nature,
    Evs,
    Gender,
    Ivs,
    Shiny,
    Level,
    Misc,
}

impl Field {
    /// Whether no field comes after this one.
    pub fn is_last(self) -> bool
        ensures last { result ≡ (field_index self == last) }
        ensures before { (if result then false else true) ≡ nat_lt (field_index self) last }
    {
        match self {
            Field::Misc => true,
            _ => false,
        }
    }

    /// The field after this one.
    pub fn next(self) -> Field
        requires { field_index self < last }
        ensures { field_index result ≡ field_index self + 1 }
    {
        match self {
            Field::Nick => Field::Species,
            Field::Species => Field::Item,
            Field::Item => Field::Ability,
            Field::Ability => Field::Moves,
            Field::Moves => Field::Nature,
            Field::Nature => Field::Evs,
            Field::Evs => Field::Gender,
            Field::Gender => Field::Ivs,
            Field::Ivs => Field::Shiny,
            Field::Shiny => Field::Level,
            Field::Level => Field::Misc,
            Field::Misc => unreachable!(),
        }
    }

    /// How many fields come after this one.
    pub fn left(self) -> usize
        ensures value { result ≡ last - field_index self }
        ensures few { result < 12 }
    {
        match self {
            Field::Nick => 11,
            Field::Species => 10,
            Field::Item => 9,
            Field::Ability => 8,
            Field::Moves => 7,
            Field::Nature => 6,
            Field::Evs => 5,
            Field::Gender => 4,
            Field::Ivs => 3,
            Field::Shiny => 2,
            Field::Level => 1,
            Field::Misc => 0,
        }
    }

    /// Whether a fault in the field's text is one of numbers.
    pub fn is_numeric(self) -> bool
        ensures { result ≡ is_numeric (form_of (field_index self)) }
    {
        match self {
            Field::Evs => true,
            Field::Gender => true,
            Field::Ivs => true,
            Field::Shiny => true,
            Field::Level => true,
            _ => false,
        }
    }
}
