//! What a drill tells.
ghost use Rattle.std.specs.Prelude.{◌≡◌, ◌++◌, IfOk, OnOk, codes, string_bytes};
ghost use Rattle.ps_replay.specs.Drills.{number_line, digest_line, summary_lines};

use replay_state::transcript::Counts;
use std::alloc::{AllocError, Global};
use std::fmt::Write;

/// The numbers of a drill.
#[derive(Clone, Copy)]
pub(crate) struct Figures {
    /// The lines of its script.
    pub(crate) lines: usize,
    /// The entries that they make, and those of them that are refused.
    pub(crate) counts: Counts,
    /// The messages of its transcript.
    pub(crate) messages: u64,
    /// The bytes of both.
    pub(crate) bytes: u64,
}

fn push_lines(out: &mut String, lines: usize) -> Result<(), AllocError>
    ensures { OnOk result (string_bytes out.new ≡ string_bytes out.old ++ number_line (codes "lines") lines) }
{
    writeln!(out, "lines {lines}")
}

fn push_number(out: &mut String, name: &str, number: u64) -> Result<(), AllocError>
    ensures { OnOk result (string_bytes out.new ≡ string_bytes out.old ++ number_line name.now number) }
{
    writeln!(out, "{name} {number}")
}

fn push_digest(alloc: Global, out: &mut String, digest: &[u8]) -> Result<(), AllocError>
    ensures { OnOk result (string_bytes out.new ≡ string_bytes out.old ++ digest_line digest.now) }
{
    let hex = hex::encode(alloc, digest)?;
    writeln!(out, "sha256 {hex}")
}

/// The six lines of a drill, of which this is the digest.
#[tactic(auto, unfolding(crate::specs::Drills::summary_lines))]
pub(crate) fn summary_text(
    alloc: Global,
    figures: Figures,
    digest: &[u8],
) -> Result<String, AllocError>
    ensures { IfOk result (λ t. string_bytes t
        ≡ summary_lines figures.lines figures.counts.entries figures.counts.refused figures.messages figures.bytes digest.now) }
{
    let mut out = String::new(alloc);
    push_lines(&mut out, figures.lines)?;
    push_number(&mut out, "entries", figures.counts.entries)?;
    push_number(&mut out, "refused", figures.counts.refused)?;
    push_number(&mut out, "messages", figures.messages)?;
    push_number(&mut out, "bytes", figures.bytes)?;
    push_digest(alloc, &mut out, digest)?;
    Ok(out)
}
