//! What was expected at a place, and the names that would have stood there.
use crate::rows::Texts;
use crate::rules::CLAUSES;
use crate::values::{list_under, object_under, text_under};
use ps_base::text::Text;
use serde_json::Value;
use std::alloc::{AllocError, Global};

const NAME: &str =
    "a name of 1 to 32 plain characters without `|`, `,` and `]`, whose id nothing of its list has";

const CHANCE: &str = "a whole number from 0 to 256, out of 256";

const ID: &str = "one or more of a to z and 0 to 9, which nothing before in the list has";

const PERMISSION: &str = "a text of the letters `u` (lower ranks), `s` (oneself) and `a` (all)";

const SEED: &str = "a whole number from 0 to 18446744073709551615";

/// What is expected at a place of a dex file, by its path without indexes: of types and factors.
const AT_TYPES: &[(&str, &str)] = &[
    (
        "",
        "a JSON object with the keys `types`, `factors`, `moves`, `species` and `aliases`",
    ),
    ("types", "a list of at most 32 types"),
    ("types[]", "an object with `name` and `special`"),
    ("types[].name", NAME),
    ("types[].special", "true or false"),
    ("factors", "a list of triples, as [\"Fire\", \"Grass\", 20]"),
    (
        "factors[]",
        "a pair of types that no triple before has, and its factor in tenths",
    ),
    ("factors[][0]", "the name of a type"),
    ("factors[][1]", "the name of a type"),
    ("factors[][2]", "0, 5, 10 or 20: the factor in tenths"),
];

/// Of moves.
const AT_MOVES: &[(&str, &str)] = &[
    ("moves", "a list of at most 1,024 moves"),
    (
        "moves[]",
        "an object with `name`, `type`, `power`, `accuracy`, `pp` and `priority`",
    ),
    ("moves[].name", NAME),
    ("moves[].type", "the name of a type"),
    ("moves[].power", "a whole number from 0 to 255"),
    (
        "moves[].accuracy",
        "a whole number from 0 to 100, in percent; 0 never misses",
    ),
    ("moves[].pp", "a whole number from 1 to 64, with all PP Ups"),
    ("moves[].priority", "-1, 0 or 1"),
    ("moves[].high", "true or false"),
    (
        "moves[].effect",
        "an object with `kind` and the fields of that kind",
    ),
];

/// Of a move's effect.
const AT_EFFECTS: &[(&str, &str)] = &[
    ("moves[].effect.kind", "a kind of effect"),
    ("moves[].effect.amount", "a whole number from 1 to 713"),
    (
        "moves[].effect.status",
        "`slp`, `par`, `brn`, `psn`, `tox` or `frz`",
    ),
    ("moves[].effect.chance", CHANCE),
    ("moves[].effect.who", "`self` or `foe`"),
    (
        "moves[].effect.stat",
        "`atk`, `def`, `spc`, `spe`, `acc` or `eva`",
    ),
    (
        "moves[].effect.by",
        "a whole number: -6 to 6 without 0 of a boost, 1 to 255 of a recoil",
    ),
    ("moves[].effect.away", "true or false"),
    ("moves[].effect.which", "`reflect` or `light`"),
    (
        "moves[].effect.sub",
        "`mimic`, `transform`, `metronome`, `mirrormove`, `conversion` or `disable`",
    ),
];

/// Of species and aliases.
const AT_SPECIES: &[(&str, &str)] = &[
    ("species", "a list of at most 1,024 species"),
    (
        "species[]",
        "an object with `name`, `types`, `stats` and `learns`",
    ),
    ("species[].name", NAME),
    ("species[].types", "a list of one or two types"),
    (
        "species[].types[]",
        "the name of a type, not the same one twice",
    ),
    (
        "species[].stats",
        "a list of five numbers: HP, Attack, Defense, Special, Speed",
    ),
    ("species[].stats[]", "a whole number from 1 to 255"),
    ("species[].learns", "a list of names of moves"),
    ("species[].learns[]", "the name of a move, none twice"),
    (
        "aliases",
        "an object from texts to names of species and moves",
    ),
    (
        "aliases.*",
        "the name of a species or a move; a key with letters or digits, whose id no key before has",
    ),
];

/// What is expected at a place of a configuration: of groups.
const AT_GROUPS: &[(&str, &str)] = &[
    (
        "",
        "a JSON object with the keys `version`, `groups`, `staff`, `rooms`, `users`, `rulesets`, `formats`, `nonce`, `seed` and `seeds`",
    ),
    ("version", "1 or 2"),
    ("groups", "a list of 1 to 16 groups, the highest first"),
    (
        "groups[]",
        "an object with `symbol`, `id` and `name`; at most 16 of them",
    ),
    (
        "groups[].symbol",
        "one character, no other group's; of the last group a space",
    ),
    ("groups[].id", ID),
    ("groups[].name", "a text"),
    (
        "groups[].inherit",
        "the symbol of a group further down; only the last group may lack it",
    ),
    (
        "groups[].permissions",
        "an object with some of `announce`, `modnote`, `warn`, `mute`, `ban`, `modchat` and `promote`",
    ),
];

/// Of a group's permissions.
const AT_PERMISSIONS: &[(&str, &str)] = &[
    ("groups[].permissions.announce", PERMISSION),
    ("groups[].permissions.modnote", PERMISSION),
    ("groups[].permissions.warn", PERMISSION),
    ("groups[].permissions.mute", PERMISSION),
    ("groups[].permissions.ban", PERMISSION),
    ("groups[].permissions.modchat", PERMISSION),
    ("groups[].permissions.promote", PERMISSION),
];

/// Of rooms and users.
const AT_ROOMS: &[(&str, &str)] = &[
    (
        "staff",
        "the symbol of a group; where it is missing, some group has `%`",
    ),
    ("rooms", "a list of 1 to 16 rooms"),
    ("rooms[]", "an object with `id` and `title`"),
    ("rooms[].id", ID),
    ("rooms[].title", "a text without control characters"),
    ("users", "a list of registered names"),
    ("users[]", "an object with `id`, `secret` and `group`"),
    ("users[].id", ID),
    ("users[].secret", "a text"),
    ("users[].group", "the symbol of a group"),
];

/// Of formats.
const AT_FORMATS: &[(&str, &str)] = &[
    ("formats", "a list of formats"),
    ("formats[]", "an object with `name`"),
    (
        "formats[].name",
        "1 to 32 characters without `|`, some of them letters or digits, whose id no format before has",
    ),
    (
        "formats[].rules",
        "clauses, rulesets, or `!` and a clause, here and in each ruleset that is named; no ruleset inside itself; \
        no clause named and repealed in one list",
    ),
    (
        "formats[].rules[]",
        "a text: a clause, a ruleset, or `!` and a clause",
    ),
    (
        "formats[].bans",
        "a list of species and moves of the dex file",
    ),
    (
        "formats[].bans[]",
        "a species, a move or an alias of the dex file, none twice",
    ),
    ("formats[].min", "a whole number from 1 to 6"),
    ("formats[].max", "a whole number from 1 to 6"),
    ("formats[].levels", "a list of two levels, the lowest first"),
    ("formats[].levels[]", "a whole number from 1 to 100"),
    ("formats[].rated", "true or false"),
];

/// Of rulesets, and of what is drawn.
const AT_RULESETS: &[(&str, &str)] = &[
    ("rulesets", "an object from ids to lists of rules"),
    (
        "rulesets.*",
        "a list of rules; a key with letters or digits, whose id no key before has",
    ),
    (
        "rulesets.*[]",
        "a text: a clause, a ruleset, or `!` and a clause",
    ),
    ("nonce", "1 to 32 letters and digits"),
    ("seed", SEED),
    ("seeds", "a list of whole numbers"),
    ("seeds[]", SEED),
];

const KINDS: &[&str] = &[
    "plain",
    "fixed",
    "level",
    "half",
    "psywave",
    "ohko",
    "status",
    "confuse",
    "flinch",
    "boost",
    "drain",
    "dreameater",
    "recoil",
    "crash",
    "multi",
    "double",
    "explode",
    "charge",
    "recharge",
    "trap",
    "thrash",
    "bide",
    "rage",
    "counter",
    "substitute",
    "leechseed",
    "screen",
    "mist",
    "focus",
    "haze",
    "heal",
    "rest",
    "copy",
    "nothing",
];

const SUBS: &[&str] = &[
    "mimic",
    "transform",
    "metronome",
    "mirrormove",
    "conversion",
    "disable",
];

/// The path without the indexes of lists, but for those of a factor; a free key is a star.
pub(crate) fn pattern_of(alloc: Global, path: &str) -> Result<String, AllocError> {
    let mut pattern = String::new(alloc);
    let mut in_index = false;
    let mut in_key = false;
    for byte in path.as_bytes() {
        let byte = *byte;
        if byte == b']' {
            in_index = false;
        }
        if byte == b'[' && in_key {
            in_key = false;
        }
        let is_fixed = pattern.as_str() == "factors[][";
        if byte.is_ascii() && !in_key && (!in_index || is_fixed) {
            pattern.push(char::from(byte))?;
        }
        if byte == b'[' {
            in_index = true;
        }
        if pattern.as_str() == "aliases." || pattern.as_str() == "rulesets." {
            pattern.push('*')?;
            in_key = true;
        }
    }
    Ok(pattern)
}

fn found(table: &[(&str, &'static str)], pattern: &str) -> Option<&'static str> {
    for (place, what) in table {
        if *place == pattern {
            return Some(*what);
        }
    }
    None
}

// The first of the tables that has the place tells.
fn found_in(tables: &[&[(&str, &'static str)]], pattern: &str) -> Option<&'static str> {
    for table in tables {
        if let Some(what) = found(table, pattern) {
            return Some(what);
        }
    }
    None
}

fn in_dex(pattern: &str) -> Option<&'static str> {
    found_in(&[AT_TYPES, AT_MOVES, AT_EFFECTS, AT_SPECIES], pattern)
}

fn in_config(pattern: &str) -> Option<&'static str> {
    found_in(
        &[AT_GROUPS, AT_PERMISSIONS, AT_ROOMS, AT_RULESETS, AT_FORMATS],
        pattern,
    )
}

/// What is expected at a place with this pattern, if anything may stand there.
pub(crate) fn expected(is_dex: bool, pattern: &str) -> Option<&'static str> {
    if is_dex {
        in_dex(pattern)
    } else {
        in_config(pattern)
    }
}

fn add_words(names: &mut Texts, words: &[&str]) {
    for word in words {
        names.add(word);
    }
}

pub(crate) fn add_clauses(names: &mut Texts) {
    for clause in CLAUSES {
        names.add(clause.name());
    }
}

// The texts that the objects of a list have at a key.
fn add_list(names: &mut Texts, value: Option<&Value>, list: &str, key: &str) {
    if let Some(items) = list_under(value, list) {
        for item in items {
            if let Some(name) = text_under(item, key) {
                names.add(name);
            }
        }
    }
}

fn add_keys(names: &mut Texts, value: Option<&Value>, object: &str) {
    if let Some(members) = object_under(value, object) {
        for key in members.keys() {
            names.add(key.as_str());
        }
    }
}

fn add_list_or_all_symbols(names: &mut Texts, config: Option<&Value>) {
    add_list(names, config, "groups", "symbol");
    if names.is_empty() {
        add_words(names, &["~", "#", "@", "%", "*", "+", " "]);
    }
}

fn add_species_and_moves(names: &mut Texts, dex: Option<&Value>) {
    add_list(names, dex, "species", "name");
    add_list(names, dex, "moves", "name");
}

// The words that may stand at a place, whatever the files say.
fn words_at(pattern: &str) -> &'static [&'static str] {
    match pattern {
        "moves[].effect.kind" => KINDS,
        "moves[].effect.status" => &["slp", "par", "brn", "psn", "tox", "frz"],
        "moves[].effect.stat" => &["atk", "def", "spc", "spe", "acc", "eva"],
        "moves[].effect.who" => &["self", "foe"],
        "moves[].effect.which" => &["reflect", "light"],
        "moves[].effect.sub" => SUBS,
        _ => &[],
    }
}

// The names of a dex that may stand at a place.
fn add_of_dex(names: &mut Texts, pattern: &str, dex: Option<&Value>) {
    match pattern {
        "factors[][0]" | "factors[][1]" | "moves[].type" | "species[].types[]" => {
            add_list(names, dex, "types", "name")
        }
        "species[].learns[]" => add_list(names, dex, "moves", "name"),
        "aliases.*" => add_species_and_moves(names, dex),
        "formats[].bans[]" => {
            add_species_and_moves(names, dex);
            add_keys(names, dex, "aliases");
        }
        _ => {}
    }
}

// The names of a configuration that may stand at a place.
fn add_of_config(names: &mut Texts, pattern: &str, config: Option<&Value>) {
    match pattern {
        "formats[].rules" => {
            add_clauses(names);
            add_keys(names, config, "rulesets");
        }
        "staff" | "groups[].inherit" | "users[].group" => add_list_or_all_symbols(names, config),
        _ => {}
    }
}

/// The names that may stand at a place with this pattern.
pub(crate) fn names_for(
    alloc: Global,
    pattern: &str,
    dex: Option<&Value>,
    config: Option<&Value>,
) -> Result<Vec<Text>, AllocError> {
    let mut names = Texts::new(alloc);
    add_words(&mut names, words_at(pattern));
    add_of_dex(&mut names, pattern, dex);
    add_of_config(&mut names, pattern, config);
    names.into_vec()
}
