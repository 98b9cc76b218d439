//! The check of several sources.
ghost use Rattle.std.specs.Prelude.{◌≡◌, ◌∷◌, [], map, All, IfOk, IfErr};
ghost use Rattle.lk_sources.specs.Accepting.{IsCheckedSource, units_of};
ghost use Rattle.lk_sources.specs.Faults.{AreFaultless, IsFaultless};
ghost use Rattle.lk_sources.specs.Judging.{IsFaulty};

use lk_base::{Fault, Name};
use lk_check_unit::{Checked, check};
use lk_parse_unit::Parsed;
use std::alloc::Global;

/// A source that is accepted.
#[derive(Drop)]
pub struct AcceptedSource {
    /// Its tree.
    pub parsed: Parsed,
    /// What is found at its nodes.
    pub checked: Checked,
}

/// Checks a source.
fn check_source(alloc: Global, externs: &[Name], parsed: Parsed) -> Result<AcceptedSource, Fault>
    ensures unit { IfOk result (λ source. source.parsed.unit ≡ parsed.unit) }
    ensures checked { IfOk result (IsCheckedSource externs.now) }
    ensures ok { IfOk result (λ source. IsFaultless externs.now parsed.unit) }
    ensures err { IfErr result (IsFaulty externs.now (parsed.unit ∷ [])) }
{
    let checked = check(alloc, &parsed.unit, externs)?;
    Ok(AcceptedSource { parsed, checked })
}

/// Checks each source, where `--externs` lists these names.
///
/// A refusal is for the first source with a fault, by its least.
pub(crate) fn check_all(
    alloc: Global,
    externs: &[Name],
    trees: Vec<Parsed>,
) -> Result<Vec<AcceptedSource>, Fault>
    ensures checked { IfOk result (λ sources. All (IsCheckedSource externs.now) sources.items) }
    ensures units { IfOk result (λ sources. units_of sources.items ≡ map (λ parsed. parsed.unit) trees.items) }
    ensures ok { IfOk result (λ sources. AreFaultless externs.now (map (λ parsed. parsed.unit) trees.items)) }
    ensures err { IfErr result (IsFaulty externs.now (map (λ parsed. parsed.unit) trees.items)) }
{
    let mut sources = Vec::new(alloc);
    for parsed in trees {
        let source = check_source(alloc, externs, parsed)?;
        sources.push(source)?;
    }
    Ok(sources)
}
