//! Where a file isn't in its form, as a person looks it up.
use crate::data_file::{DataFile, open_bytes, open_text, open_value};
use crate::expected::{add_clauses, expected, names_for, pattern_of};
use crate::rows::{Rows, Texts};
use crate::values::{list_of, list_under, object_under};
use file_help::page::{Row, Section, section_of};
use json_place::excerpt::{Place, byte_of, excerpt, has_star_before, place_of, text_at};
use json_place::keys::{Note, of_config, of_dex};
use json_place::nearest::nearest;
use json_place::place::find;
use ps_base::id::to_id;
use ps_base::text::Text;
use ps_data::fault::DataKind;
use ps_outside::files::Files;
use serde_json::{Map, Value};
use std::alloc::{AllocError, Global};
use std::collections::BTreeMap;

/// The most names that are listed where none is near.
const MOST_NAMES: usize = 40;

fn kind_text(kind: DataKind) -> &'static str {
    match kind {
        DataKind::Json => "the text is no JSON",
        DataKind::Shape =>
            "another form of value than is read here, or something that must be there and isn't",
        DataKind::Range => "a number, a length or a text out of its range",
        DataKind::Unknown => "a name that stands for nothing",
        DataKind::Repeat => "what came before in its list, or inside itself",
    }
}

// A number, and what is to be said of it.
fn push_number(alloc: Global, rows: &mut Rows, key: &str, number: usize, told: &str) {
    rows.formatted(key, format!(in alloc; "{number}{told}"));
}

// Line, column, the line with a mark.
fn push_place(alloc: Global, rows: &mut Rows, bytes: &[u8], at: usize) -> Result<(), AllocError> {
    let place = place_of(bytes, at);
    let counted = if has_star_before(bytes, at) {
        ", if what is hidden by a star counts as one character"
    } else {
        ""
    };
    push_number(alloc, rows, "line", place.line, "");
    push_number(alloc, rows, "column", place.column, counted);
    let (shown, mark) = excerpt(alloc, bytes, at)?;
    rows.text("text", shown.as_str());
    rows.text("here", mark.as_str());
    Ok(())
}

fn between_backquotes(alloc: Global, name: &Text) -> Result<String, AllocError> {
    let name = name.as_str();
    format!(in alloc; "`{name}`")
}

// The names, each between backquotes, since one may be a space.
fn quoted(alloc: Global, names: &[Text]) -> Result<Vec<Text>, AllocError> {
    let mut texts = Texts::new(alloc);
    for name in names {
        texts.formatted(between_backquotes(alloc, name));
    }
    texts.into_vec()
}

fn nearest_of<'a>(
    alloc: Global,
    word: &str,
    names: &'a [Text],
) -> Result<Option<&'a str>, AllocError> {
    let mut plain = Vec::new(alloc);
    for name in names {
        plain.push(name.as_str())?;
    }
    Ok(nearest(word, plain.as_slice()))
}

fn push_nearest(
    alloc: Global,
    rows: &mut Rows,
    word: &str,
    names: &[Text],
) -> Result<(), AllocError> {
    if let Some(name) = nearest_of(alloc, word, names)? {
        rows.text("did you mean", name);
        return Ok(());
    }
    if !names.is_empty() && names.len() <= MOST_NAMES {
        let quoted = quoted(alloc, names)?;
        rows.listed("there are", &quoted);
    }
    Ok(())
}

// ---- a text that is no JSON

/// The last byte before a place that is no space and no line break.
fn byte_before(bytes: &[u8], at: usize) -> u8 {
    let mut last = 0;
    for i in 0..bytes.len() {
        if i >= at {
            return last;
        }
        if !matches!(bytes[i], b' ' | b'\n' | b'\r' | b'\t') {
            last = bytes[i];
        }
    }
    last
}

/// What was expected at the place where a text stops being JSON.
fn json_expected(bytes: &[u8], at: usize) -> &'static str {
    let before = byte_before(bytes, at);
    match bytes.get(at) {
        None => "more: the text ends too early, with something open",
        Some(b']' | b'}') if before == b',' =>
            "no comma before this bracket: none stands behind the last item",
        Some(b'\'') => "a text in double quotes",
        Some(b'"') => "a comma or a colon before this text",
        Some(b'{' | b'[') => "a comma or a colon before this bracket",
        Some(_) if before == b'{' || before == b',' =>
            "a key or a text in double quotes, a number, true, false or a bracket",
        Some(_) =>
            "JSON: keys and texts in double quotes, commas between items and none behind the last",
    }
}

fn push_expected(rows: &mut Rows, what: &str) {
    rows.text("expected", what);
}

// Where a text stops being JSON, if it does.
fn place_of_error(alloc: Global, parsed: &[u8]) -> Option<Place> {
    match Value::from_slice(alloc, parsed) {
        Ok(_) => None,
        Err(error) => Some(Place {
            line: error.line(),
            column: error.column(),
        }),
    }
}

// Of a text as it may be told, and as it may be parsed.
fn push_json(
    alloc: Global,
    rows: &mut Rows,
    shown: &[u8],
    parsed: &[u8],
) -> Result<(), AllocError> {
    if shown.starts_with(b"\xEF\xBB\xBF") {
        push_place(alloc, rows, shown, 0)?;
        push_expected(
            rows,
            "JSON without a byte order mark: save the file as UTF-8 without one",
        );
        return Ok(());
    }
    let Some(place) = place_of_error(alloc, parsed) else {
        push_expected(
            rows,
            "JSON at the secrets, the nonce and the seeds, too, which aren't shown",
        );
        return Ok(());
    };
    let at = byte_of(shown, place);
    push_place(alloc, rows, shown, at)?;
    push_expected(rows, json_expected(shown, at));
    Ok(())
}

// ---- a rule that can't stand

fn is_rule(alloc: Global, rule: &str, names: &BTreeMap<String, ()>) -> Result<bool, AllocError> {
    let id = to_id(alloc, rule)?;
    Ok(names.get(id.as_str()).is_some())
}

// Whether a text may stand in a list of rules: a clause or a ruleset, or `!` and a clause.
fn can_stand(
    alloc: Global,
    rule: &str,
    names: &BTreeMap<String, ()>,
    clauses: &BTreeMap<String, ()>,
) -> Result<bool, AllocError> {
    if rule.starts_with('!') {
        is_rule(alloc, rule, clauses)
    } else {
        is_rule(alloc, rule, names)
    }
}

// The first text of a list that can't stand in it.
fn wrong_rule<'a>(
    alloc: Global,
    rules: Option<&'a Value>,
    names: &BTreeMap<String, ()>,
    clauses: &BTreeMap<String, ()>,
) -> Result<Option<&'a str>, AllocError> {
    if let Some(rules) = list_of(rules) {
        for rule in rules {
            if let Some(rule) = rule.as_str() {
                if !can_stand(alloc, rule, names, clauses)? {
                    return Ok(Some(rule));
                }
            }
        }
    }
    Ok(None)
}

// A rule that can't stand, as it is told, and the nearest of those that can.
fn push_wrong_rule(
    alloc: Global,
    rows: &mut Rows,
    told: &str,
    rule: &str,
    names: &[Text],
    clauses: &[Text],
) -> Result<(), AllocError> {
    rows.text("at fault", told);
    if rule.starts_with('!') {
        push_nearest(alloc, rows, rule, clauses)
    } else {
        push_nearest(alloc, rows, rule, names)
    }
}

fn add_id(alloc: Global, ids: &mut BTreeMap<String, ()>, name: &str) -> Result<(), AllocError> {
    let id = id_text(alloc, name)?;
    ids.insert(id, ())?;
    Ok(())
}

fn id_names(alloc: Global, names: &[Text]) -> Result<BTreeMap<String, ()>, AllocError> {
    let mut ids = BTreeMap::new(alloc);
    for name in names {
        add_id(alloc, &mut ids, name.as_str())?;
    }
    Ok(ids)
}

fn id_text(alloc: Global, name: &str) -> Result<String, AllocError> {
    let id = to_id(alloc, name)?;
    String::from_str(alloc, id.as_str())
}

fn keys_of(alloc: Global, sets: &Map<String, Value>) -> Result<Vec<Text>, AllocError> {
    let mut keys = Texts::new(alloc);
    for key in sets.keys() {
        keys.add(key.as_str());
    }
    keys.into_vec()
}

fn add_named(
    alloc: Global,
    inner: &mut Texts,
    rule: &str,
    ids: &BTreeMap<String, ()>,
) -> Result<(), AllocError> {
    if is_rule(alloc, rule, ids)? {
        inner.add(rule);
    }
    Ok(())
}

// The texts of a list whose ids are among these.
fn named_in(
    alloc: Global,
    list: &[Value],
    ids: &BTreeMap<String, ()>,
) -> Result<Vec<Text>, AllocError> {
    let mut inner = Texts::new(alloc);
    for rule in list {
        if let Some(rule) = rule.as_str() {
            add_named(alloc, &mut inner, rule, ids)?;
        }
    }
    inner.into_vec()
}

fn push_named(alloc: Global, rows: &mut Rows, key: &str, names: &[Text]) -> Result<(), AllocError> {
    if !names.is_empty() {
        let place = format!(in alloc; "ruleset {key} names")?;
        rows.listed(place.as_str(), names);
    }
    Ok(())
}

fn push_set(
    alloc: Global,
    rows: &mut Rows,
    key: &str,
    rules: &Value,
    ids: &BTreeMap<String, ()>,
) -> Result<(), AllocError> {
    let Some(list) = rules.as_array() else {
        return Ok(());
    };
    let inner = named_in(alloc, list, ids)?;
    push_named(alloc, rows, key, &inner)
}

fn push_each_set(
    alloc: Global,
    rows: &mut Rows,
    sets: &Map<String, Value>,
    ids: &BTreeMap<String, ()>,
) -> Result<(), AllocError> {
    for (key, rules) in sets {
        push_set(alloc, rows, key.as_str(), rules, ids)?;
    }
    Ok(())
}

fn rulesets_of(config: Option<&Value>) -> Option<&Map<String, Value>> {
    object_under(config, "rulesets")
}

fn ids_of_keys(
    alloc: Global,
    sets: &Map<String, Value>,
) -> Result<BTreeMap<String, ()>, AllocError> {
    let keys = keys_of(alloc, sets)?;
    id_names(alloc, &keys)
}

// Each ruleset that names others, with these: a ruleset inside itself is among them.
fn push_sets(alloc: Global, rows: &mut Rows, config: Option<&Value>) -> Result<(), AllocError> {
    let Some(sets) = rulesets_of(config) else {
        return Ok(());
    };
    let ids = ids_of_keys(alloc, sets)?;
    push_each_set(alloc, rows, sets, &ids)
}

// The texts of a list that repeal nothing.
fn plain_in(alloc: Global, rules: &[Value]) -> Result<Vec<Text>, AllocError> {
    let mut named = Texts::new(alloc);
    for rule in rules {
        if let Some(rule) = rule.as_str() {
            if !rule.starts_with('!') {
                named.add(rule);
            }
        }
    }
    named.into_vec()
}

fn ids_of_plain(alloc: Global, rules: &[Value]) -> Result<BTreeMap<String, ()>, AllocError> {
    let named = plain_in(alloc, rules)?;
    id_names(alloc, &named)
}

// A text of a list that repeals what is named in it, by its id.
fn push_repeal(
    alloc: Global,
    rows: &mut Rows,
    place: &str,
    rule: &str,
    ids: &BTreeMap<String, ()>,
) -> Result<(), AllocError> {
    if rule.starts_with('!') && is_rule(alloc, rule, ids)? {
        rows.formatted(
            "at fault",
            format!(in alloc; "{rule} beside the same clause, in {place}"),
        );
    }
    Ok(())
}

fn push_each_repeal(
    alloc: Global,
    rows: &mut Rows,
    place: &str,
    rules: &[Value],
    ids: &BTreeMap<String, ()>,
) -> Result<(), AllocError> {
    for rule in rules {
        if let Some(rule) = rule.as_str() {
            push_repeal(alloc, rows, place, rule, ids)?;
        }
    }
    Ok(())
}

// The lists that name a clause and repeal it.
fn push_repeals(
    alloc: Global,
    rows: &mut Rows,
    place: &str,
    rules: Option<&Value>,
) -> Result<(), AllocError> {
    let Some(rules) = list_of(rules) else {
        return Ok(());
    };
    let ids = ids_of_plain(alloc, rules)?;
    push_each_repeal(alloc, rows, place, rules, &ids)
}

fn push_repeals_of(
    alloc: Global,
    rows: &mut Rows,
    key: &str,
    rules: &Value,
) -> Result<(), AllocError> {
    let place = format!(in alloc; "the ruleset {key}")?;
    push_repeals(alloc, rows, place.as_str(), Some(rules))
}

// Those of the format's own list, and of each ruleset.
fn push_all_repeals(
    alloc: Global,
    rows: &mut Rows,
    own: Option<&Value>,
    config: Option<&Value>,
) -> Result<(), AllocError> {
    push_repeals(alloc, rows, "its own rules", own)?;
    let Some(sets) = rulesets_of(config) else {
        return Ok(());
    };
    for (key, rules) in sets {
        push_repeals_of(alloc, rows, key.as_str(), rules)?;
    }
    Ok(())
}

// The rules of the format with the path `formats[INDEX].rules`.
fn own_rules<'a>(config: Option<&'a Value>, path: &str) -> Option<&'a Value> {
    let formats = list_under(config, "formats")?;
    let mut index = 0usize;
    for byte in path.as_bytes() {
        if byte.is_ascii_digit() {
            index = index
                .saturating_mul(10)
                .saturating_add(usize::from(byte.saturating_sub(48)));
        }
    }
    formats.get(index)?.get("rules")
}

// What may stand in a list of rules.
#[derive(Clone, Copy)]
struct Known<'a> {
    // Clauses and rulesets, and the ids of them.
    names: &'a [Text],
    ids: &'a BTreeMap<String, ()>,
    // The clauses alone.
    clauses: &'a [Text],
    clause_ids: &'a BTreeMap<String, ()>,
}

// The first ruleset with a text that can't stand in it.
fn push_wrong_set(
    alloc: Global,
    rows: &mut Rows,
    sets: &Map<String, Value>,
    known: Known<'_>,
) -> Result<(), AllocError> {
    for (key, rules) in sets {
        if let Some(rule) = wrong_rule(alloc, Some(rules), known.ids, known.clause_ids)? {
            let told = format!(in alloc; "{rule}, in the ruleset {key}")?;
            return push_wrong_rule(alloc, rows, told.as_str(), rule, known.names, known.clauses);
        }
    }
    Ok(())
}

// The first text that can't stand, in the format's own list or in a ruleset.
fn push_wrong(
    alloc: Global,
    rows: &mut Rows,
    own: Option<&Value>,
    config: Option<&Value>,
    known: Known<'_>,
) -> Result<(), AllocError> {
    if let Some(rule) = wrong_rule(alloc, own, known.ids, known.clause_ids)? {
        return push_wrong_rule(alloc, rows, rule, rule, known.names, known.clauses);
    }
    match rulesets_of(config) {
        None => Ok(()),
        Some(sets) => push_wrong_set(alloc, rows, sets, known),
    }
}

fn clause_names(alloc: Global) -> Result<Vec<Text>, AllocError> {
    let mut clauses = Texts::new(alloc);
    add_clauses(&mut clauses);
    clauses.into_vec()
}

fn push_unknown(
    alloc: Global,
    rows: &mut Rows,
    own: Option<&Value>,
    config: Option<&Value>,
    names: &[Text],
) -> Result<(), AllocError> {
    let clauses = clause_names(alloc)?;
    let ids = id_names(alloc, names)?;
    let clause_ids = id_names(alloc, &clauses)?;
    let known = Known {
        names,
        ids: &ids,
        clauses: &clauses,
        clause_ids: &clause_ids,
    };
    push_wrong(alloc, rows, own, config, known)
}

// Where a format's rules can't be walked: the text that names nothing, in its own list or in a ruleset.
fn push_rule(
    alloc: Global,
    rows: &mut Rows,
    kind: DataKind,
    path: &str,
    config: Option<&Value>,
    names: &[Text],
) -> Result<(), AllocError> {
    let own = own_rules(config, path);
    match kind {
        DataKind::Repeat => push_sets(alloc, rows, config),
        DataKind::Range => push_all_repeals(alloc, rows, own, config),
        _ => push_unknown(alloc, rows, own, config, names),
    }
}

// ---- a value that isn't in its form

// What stands at a place.
fn push_text_at(
    alloc: Global,
    rows: &mut Rows,
    bytes: &[u8],
    at: usize,
    kind: DataKind,
    names: &[Text],
) -> Result<(), AllocError> {
    let text = text_at(alloc, bytes, at)?;
    rows.text("at fault", text.as_str());
    if kind == DataKind::Unknown {
        return push_nearest(alloc, rows, text.as_str(), names);
    }
    Ok(())
}

fn notes_of(
    alloc: Global,
    is_dex: bool,
    dex: Option<&Value>,
    config: Option<&Value>,
) -> Result<Vec<Note>, AllocError> {
    match (is_dex, dex, config) {
        (true, Some(value), _) => of_dex(alloc, value),
        (false, _, Some(value)) => of_config(alloc, value),
        _ => Ok(Vec::new(alloc)),
    }
}

// The fault of a value with this path and pattern, and the names that may stand there.
fn push_fault(
    alloc: Global,
    rows: &mut Rows,
    bytes: &[u8],
    path: &str,
    pattern: &str,
    kind: DataKind,
    config: Option<&Value>,
    names: &[Text],
) -> Result<(), AllocError> {
    let found = find(alloc, bytes, path)?;
    push_place(alloc, rows, bytes, found.at)?;
    if !found.is_whole {
        rows.text("at fault", "nothing: the key is missing");
        return Ok(());
    }
    if pattern == "formats[].rules" {
        return push_rule(alloc, rows, kind, path, config, names);
    }
    push_text_at(alloc, rows, bytes, found.at, kind, names)
}

// The fault of a value with this path and pattern, and what was expected.
fn push_pattern(
    alloc: Global,
    rows: &mut Rows,
    bytes: &[u8],
    is_dex: bool,
    path: &str,
    pattern: &str,
    kind: DataKind,
    dex: Option<&Value>,
    config: Option<&Value>,
) -> Result<(), AllocError> {
    let names = names_for(alloc, pattern, dex, config)?;
    push_fault(alloc, rows, bytes, path, pattern, kind, config, &names)?;
    if let Some(what) = expected(is_dex, pattern) {
        push_expected(rows, what);
    }
    Ok(())
}

fn push_keys(
    alloc: Global,
    rows: &mut Rows,
    is_dex: bool,
    dex: Option<&Value>,
    config: Option<&Value>,
) -> Result<(), AllocError> {
    let notes = notes_of(alloc, is_dex, dex, config)?;
    push_notes(rows, &notes);
    Ok(())
}

fn push_value(
    alloc: Global,
    rows: &mut Rows,
    bytes: &[u8],
    is_dex: bool,
    path: &str,
    kind: DataKind,
    dex: Option<&Value>,
    config: Option<&Value>,
) -> Result<(), AllocError> {
    let pattern = pattern_of(alloc, path)?;
    push_pattern(
        alloc,
        rows,
        bytes,
        is_dex,
        path,
        pattern.as_str(),
        kind,
        dex,
        config,
    )?;
    push_keys(alloc, rows, is_dex, dex, config)
}

// Keys that nothing knows, since the one that is missing may be misspelt.
fn push_notes(rows: &mut Rows, notes: &[Note]) {
    for note in notes.iter().take(MOST_NAMES) {
        rows.text(note.place.as_str(), note.told.as_str());
    }
}

/// The files that are read.
#[derive(Clone, Copy)]
pub struct Names<'a> {
    /// The dex file, if one is named.
    pub dex: Option<&'a str>,
    /// The configuration, if one is named.
    pub config: Option<&'a str>,
}

// The file, the path and the fault.
fn push_head(rows: &mut Rows, file: DataFile<'_>, path: &str, kind: DataKind) {
    rows.text("file", file.name.unwrap_or("none"));
    let place = if path.is_empty() {
        "the whole file"
    } else {
        path
    };
    rows.text("path", place);
    rows.text("fault", kind_text(kind));
}

fn push_json_of<F: Files>(
    alloc: Global,
    rows: &mut Rows,
    files: &mut F,
    file: DataFile<'_>,
) -> Result<(), AllocError> {
    match open_text(alloc, files, file)? {
        None => Ok(()),
        Some((shown, parsed)) => push_json(alloc, rows, &shown, &parsed),
    }
}

fn push_value_of<F: Files>(
    alloc: Global,
    rows: &mut Rows,
    files: &mut F,
    read: Read<'_>,
    bytes: &[u8],
) -> Result<(), AllocError> {
    let dex = open_value(alloc, files, read.dex)?;
    let config = open_value(alloc, files, read.config)?;
    push_value(
        alloc,
        rows,
        bytes,
        read.is_dex,
        read.path,
        read.kind,
        dex.as_ref(),
        config.as_ref(),
    )
}

// The files, and the fault that reading them came to.
#[derive(Clone, Copy)]
struct Read<'a> {
    dex: DataFile<'a>,
    config: DataFile<'a>,
    is_dex: bool,
    path: &'a str,
    kind: DataKind,
}

fn push_page<F: Files>(
    alloc: Global,
    rows: &mut Rows,
    files: &mut F,
    read: Read<'_>,
) -> Result<(), AllocError> {
    let file = if read.is_dex { read.dex } else { read.config };
    push_head(rows, file, read.path, read.kind);
    if read.kind == DataKind::Json {
        return push_json_of(alloc, rows, files, file);
    }
    match open_bytes(alloc, files, file)? {
        None => Ok(()),
        Some(bytes) => push_value_of(alloc, rows, files, read, &bytes),
    }
}

fn page_rows<F: Files>(
    alloc: Global,
    files: &mut F,
    read: Read<'_>,
) -> Result<Vec<Row>, AllocError> {
    let mut rows = Rows::new(alloc);
    push_page(alloc, &mut rows, files, read)?;
    rows.into_vec()
}

fn one_section(alloc: Global, title: &str, rows: Vec<Row>) -> Result<Vec<Section>, AllocError> {
    let section = section_of(alloc, title, rows)?;
    let mut sections = Vec::new(alloc);
    sections.push(section)?;
    Ok(sections)
}

/// A page on the first fault of the dex file, or else of the configuration: the file's name, the line and the column, the text
/// around the place with a mark below, what is at fault, what was expected, and the nearest name for one that is unknown.
pub fn fault_page<F: Files>(
    alloc: Global,
    files: &mut F,
    names: Names<'_>,
    is_dex: bool,
    path: &str,
    kind: DataKind,
) -> Result<Vec<Section>, AllocError> {
    let read = Read {
        dex: DataFile {
            name: names.dex,
            is_dex: true,
        },
        config: DataFile {
            name: names.config,
            is_dex: false,
        },
        is_dex,
        path,
        kind,
    };
    let rows = page_rows(alloc, files, read)?;
    let title = if is_dex {
        "The dex file is wrong"
    } else {
        "The configuration is wrong"
    };
    one_section(alloc, title, rows)
}
