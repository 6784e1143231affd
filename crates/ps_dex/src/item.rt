//! The items of a dex file.
use ps_base::id::Id;
use ps_base::list::List;
use ps_base::text::Text;
use ps_data::ids::HasId;
use ps_data::table::Table;
use ps_mon::facts::MoveData;

/// A type. Its number is its index in the dex.
#[derive(Debug, Drop)]
pub struct TypeItem {
    /// The name for people: 1 to 32 characters.
    pub name: Text,
    /// The id of the name, which no other type has.
    pub id: Id,
    /// Whether its moves use Special in place of Attack and Defense.
    pub special: bool,
}

/// The factor of a type on a type.
#[derive(Clone, Copy, Debug, PartialEq, Eq)]
pub struct FactorItem {
    /// The number of the attacking type.
    pub attack: u8,
    /// The number of the defending type.
    pub defend: u8,
    /// The factor in tenths: 0, 5, 10 or 20.
    pub tenths: u8,
}

/// A move. Its number is its index in the dex.
#[derive(Debug, Drop)]
pub struct MoveItem {
    /// The name for people: 1 to 32 characters.
    pub name: Text,
    /// The id of the name, which no other move has.
    pub id: Id,
    /// Its numbers.
    pub numbers: MoveData,
}

/// A species. Its number is its index in the dex.
#[derive(Debug, Drop)]
pub struct SpeciesItem {
    /// The name for people: 1 to 32 characters.
    pub name: Text,
    /// The id of the name, which no other species has.
    pub id: Id,
    /// The numbers of its types: twice the same for a species of one type.
    pub types: [u8; 2],
    /// Its base stats HP, Attack, Defense, Special and Speed, each 1 to 255.
    pub stats: [u8; 5],
    /// The numbers of the moves that it can learn, in the order of the file.
    pub learns: List<u16>,
}

/// Another id for a species, a move or both. One with the id of a species or a move is kept, and never
/// used.
#[derive(Debug, Drop)]
pub struct AliasItem {
    /// The id, which no other alias has.
    pub id: Id,
    /// The species that has the id which the alias stands for.
    pub species: Option<u16>,
    /// The move that has it.
    pub mv: Option<u16>,
}

/// What a dex file says, in its order.
#[derive(Debug)]
pub struct Tables {
    /// At most 32.
    pub types: Table<TypeItem>,
    /// One for a pair of types at most; a pair without one has the factor 10.
    pub factors: List<FactorItem>,
    /// At most 1,024.
    pub moves: Table<MoveItem>,
    /// At most 1,024.
    pub species: Table<SpeciesItem>,
    /// In byte order of their keys.
    pub aliases: Table<AliasItem>,
}

// By hand, so that who drops one has one call to prove.
impl Drop for Tables {
    fn drop(self) {
        let Tables {
            types: _,
            factors: _,
            moves: _,
            species: _,
            aliases: _,
        } = self;
    }
}

impl HasId for TypeItem {
    ghost id_of = { λ t. t.id };

    fn id(&self) -> &str {
        self.id.as_str()
    }
}

impl HasId for MoveItem {
    ghost id_of = { λ m. m.id };

    fn id(&self) -> &str {
        self.id.as_str()
    }
}

impl HasId for SpeciesItem {
    ghost id_of = { λ s. s.id };

    fn id(&self) -> &str {
        self.id.as_str()
    }
}

impl HasId for AliasItem {
    ghost id_of = { λ a. a.id };

    fn id(&self) -> &str {
        self.id.as_str()
    }
}
