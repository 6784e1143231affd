//! What is told of a dex and a configuration.
ghost use Rattle.std.specs.Prelude.{◌≡◌, ◌++◌, ◌∷◌, [], IfOk, OnOk, codes, map};
ghost use Rattle.program_show.specs.DexRows.{all_factors, kind_row, kind_words};
ghost use Rattle.program_show.specs.FormatRows.{format_section};
ghost use Rattle.program_show.specs.Summary.{count_rows, section, type_sections, move_sections, species_sections};
ghost use Rattle.program_show.specs.Summary.{config_sections, rule_sections, whole, IsWhole, of_format, without_secrets};

use crate::config_rows::{group_rows, room_rows, setup_rows, user_rows};
use crate::dex_rows::{alias_rows, factor_rows, kind_rows, move_rows, species_rows, type_rows};
use crate::drill_rows::drill_rows;
use crate::format_rows::{format_section, left_section};
use crate::rows::push_count;
use crate::ruleset_rows::set_rows;
use file_help::page::{Row, Section, section_of};
use ps_dex::dex::Dex;
use ps_rules::formats::Formats;
use ps_rules::table::Format;
use rules_config::config::Config;
use std::alloc::{AllocError, Global};

#[tactic(auto, unfolding(crate::specs::Summary::count_rows))]
fn count_rows(alloc: Global, dex: &Dex, config: &Config) -> Result<Vec<Row>, AllocError>
    ensures { IfOk result (λ v. v.items ≡ count_rows dex.now config.now) }
{
    let mut rows = Vec::new(alloc);
    push_count(alloc, &mut rows, "types", dex.types().len())?;
    push_count(alloc, &mut rows, "moves", dex.moves().len())?;
    push_count(alloc, &mut rows, "species", dex.all_species().len())?;
    push_count(alloc, &mut rows, "aliases", dex.aliases().len())?;
    push_count(alloc, &mut rows, "groups", config.groups().list().len())?;
    push_count(alloc, &mut rows, "rooms", config.rooms().len())?;
    push_count(alloc, &mut rows, "registered names", config.users().len())?;
    push_count(
        alloc,
        &mut rows,
        "rulesets",
        config.formats().rulesets().len(),
    )?;
    push_count(alloc, &mut rows, "formats", config.formats().list().len())?;
    Ok(rows)
}

fn push_section(
    alloc: Global,
    sections: &mut Vec<Section>,
    title: &str,
    rows: Vec<Row>,
) -> Result<(), AllocError>
    ensures { OnOk result (sections.new.items ≡ sections.old.items ++ section title.now rows.items ∷ []) }
{
    sections.push(section_of(alloc, title, rows)?)?;
    Ok(())
}

fn push_counts(
    alloc: Global,
    sections: &mut Vec<Section>,
    dex: &Dex,
    config: &Config,
) -> Result<(), AllocError>
    ensures { OnOk result (sections.new.items ≡ sections.old.items ++ section (codes "Counts") (count_rows dex.now config.now) ∷ []) }
{
    push_section(alloc, sections, "Counts", count_rows(alloc, dex, config)?)
}

fn push_factors(alloc: Global, sections: &mut Vec<Section>, dex: &Dex) -> Result<(), AllocError>
    ensures { OnOk result (sections.new.items ≡ sections.old.items
        ++ section (codes "Factors in tenths") (all_factors dex.now.types dex.now.factors) ∷ []) }
{
    let rows = factor_rows(alloc, dex)?;
    push_section(alloc, sections, "Factors in tenths", rows)?;
    Ok(())
}

fn push_types(alloc: Global, sections: &mut Vec<Section>, dex: &Dex) -> Result<(), AllocError>
    ensures { OnOk result (sections.new.items ≡ sections.old.items ++ type_sections dex.now) }
{
    push_section(alloc, sections, "Types", type_rows(alloc, dex)?)?;
    push_factors(alloc, sections, dex)?;
    Ok(())
}

fn push_kinds(alloc: Global, sections: &mut Vec<Section>, dex: &Dex) -> Result<(), AllocError>
    ensures { OnOk result (sections.new.items ≡ sections.old.items
        ++ section (codes "Moves by kind of effect") (map (kind_row dex.now.moves) kind_words) ∷ []) }
{
    let rows = kind_rows(alloc, dex)?;
    push_section(alloc, sections, "Moves by kind of effect", rows)?;
    Ok(())
}

fn push_moves(alloc: Global, sections: &mut Vec<Section>, dex: &Dex) -> Result<(), AllocError>
    ensures { OnOk result (sections.new.items ≡ sections.old.items ++ move_sections dex.now) }
{
    push_section(alloc, sections, "Moves", move_rows(alloc, dex)?)?;
    push_kinds(alloc, sections, dex)?;
    Ok(())
}

fn push_species(alloc: Global, sections: &mut Vec<Section>, dex: &Dex) -> Result<(), AllocError>
    ensures { OnOk result (sections.new.items ≡ sections.old.items ++ species_sections dex.now) }
{
    push_section(alloc, sections, "Species", species_rows(alloc, dex)?)?;
    push_section(alloc, sections, "Aliases", alias_rows(alloc, dex)?)?;
    Ok(())
}

fn push_config(
    alloc: Global,
    sections: &mut Vec<Section>,
    config: &Config,
) -> Result<(), AllocError>
    ensures { OnOk result (sections.new.items ≡ sections.old.items ++ config_sections config.now) }
{
    let groups = config.groups();
    push_section(alloc, sections, "Groups", group_rows(alloc, groups)?)?;
    push_section(alloc, sections, "Rooms", room_rows(alloc, config.rooms())?)?;
    push_section(
        alloc,
        sections,
        "Registered names",
        user_rows(alloc, groups, config.users())?,
    )?;
    push_section(alloc, sections, "Setup", setup_rows(alloc, config)?)?;
    Ok(())
}

fn push_formats(
    alloc: Global,
    sections: &mut Vec<Section>,
    dex: &Dex,
    formats: &[Format],
) -> Result<(), AllocError>
    ensures { OnOk result (sections.new.items ≡ sections.old.items ++ map (format_section dex.now) formats.now) }
{
    for format in formats {
        sections.push(format_section(alloc, dex, format)?)?;
    }
    Ok(())
}

fn push_rules(
    alloc: Global,
    sections: &mut Vec<Section>,
    dex: &Dex,
    formats: &Formats,
) -> Result<(), AllocError>
    ensures { OnOk result (sections.new.items ≡ sections.old.items ++ rule_sections dex.now formats.now) }
{
    push_section(alloc, sections, "Rulesets", set_rows(alloc, formats)?)?;
    push_formats(alloc, sections, dex, formats.list())?;
    Ok(())
}

#[tactic(auto, unfolding(crate::specs::Summary::whole))]
fn all_sections(
    alloc: Global,
    dex: &Dex,
    config: &Config,
    drill: Vec<Row>,
) -> Result<Vec<Section>, AllocError>
    ensures { IfOk result (λ v. v.items ≡ whole dex.now config.now drill.items) }
{
    let mut sections = Vec::new(alloc);
    push_counts(alloc, &mut sections, dex, config)?;
    push_types(alloc, &mut sections, dex)?;
    push_moves(alloc, &mut sections, dex)?;
    push_species(alloc, &mut sections, dex)?;
    push_config(alloc, &mut sections, config)?;
    push_rules(alloc, &mut sections, dex, config.formats())?;
    push_section(alloc, &mut sections, "A drill would play", drill)?;
    Ok(sections)
}

/// What is told of both files. It is the same for two configurations that differ only in what their secrets are.
pub(crate) fn summary(alloc: Global, dex: &Dex, config: &Config) -> Result<Vec<Section>, AllocError>
    ensures { IfOk result (λ v. IsWhole dex.now (without_secrets config.now) v.items) }
{
    let drill = drill_rows(alloc, dex, config)?;
    let sections = all_sections(alloc, dex, config, drill)?;
    Ok(sections)
}

/// What is told of a format.
pub(crate) fn format_summary(
    alloc: Global,
    dex: &Dex,
    format: &Format,
) -> Result<Vec<Section>, AllocError>
    ensures { IfOk result (λ v. v.items ≡ of_format dex.now format.now) }
{
    let mut sections = Vec::new(alloc);
    sections.push(format_section(alloc, dex, format)?)?;
    sections.push(left_section(alloc, dex, format)?)?;
    Ok(sections)
}
