//! What the nodes of all sources have of their own, with its numbers.
ghost use Rattle.std.specs.Prelude.{◌≡◌, ◌<◌, IfOk, OnOk, get_or, length};
ghost use Rattle.lk_lower_parts.specs.FunctionNumbers.{AreFunctionNumbers};
ghost use Rattle.lk_lower_parts.specs.Gathers.{AddsSource, AreNumbered, AreTheirTypes, HaveKnownTypes, count_arguments};
ghost use Rattle.lk_lower_parts.specs.Tables.{HasMore};

use crate::counts::{FunctionNumbers, count_of};
use crate::numbers::{Gathering, Numbered};
use crate::roots::source_at;
use crate::start::Main;
use crate::types::{ArgumentTypes, argument_types};
use lk_base::{NoMemory, Seq};
use lk_typed::Whole;
use lk_types::TypeTable;
use std::alloc::Global;

/// The types of the objects of main's arguments, where it has parameters.
fn arguments(main: Main, types: &mut TypeTable) -> Result<Option<ArgumentTypes>, NoMemory>
    ensures types { IfOk result (AreTheirTypes main.has_parameters types.new) }
    ensures more { OnOk result (HasMore types.old types.new) }
{
    if main.has_parameters {
        let found = argument_types(types)?;
        Ok(Some(found))
    } else {
        Ok(None)
    }
}

/// How many roots main's arguments have.
fn count_arguments(main: Main) -> usize
    ensures { result ≡ count_arguments main.has_parameters }
{
    if main.has_parameters { 2 } else { 0 }
}

/// Adds the roots and slots of a source: those of its functions behind those of the functions before them.
/// Types that roots need are put to `types`.
fn gather_source(
    alloc: Global,
    whole: &Whole,
    source: u32,
    functions: &FunctionNumbers,
    points: &[Seq<u32>],
    types: &mut TypeTable,
    gathering: &mut Gathering,
) -> Result<(), NoMemory>
    requires within { source < length whole.now.sources }
    requires behind { length gathering.old.slots.items ≡ get_or functions.now.first source 0 }
    ensures added { OnOk result (AddsSource whole.now functions.now points.now source types.new
        gathering.old gathering.new) }
    ensures more { OnOk result (HasMore types.old types.new) }
{
    let at = source_at(alloc, whole, source, functions, points);
    let parts = at.parts(types)?;
    gathering.number(alloc, source, parts)
}

/// The roots and slots of the program: those of main's arguments first, then those of the sources, in their
/// order and that of their nodes. `points` has of each node of each source its first point. Types that
/// roots need are put to `types`.
pub fn number_roots_and_slots(
    alloc: Global,
    whole: &Whole,
    functions: &FunctionNumbers,
    main: Main,
    points: &[Seq<u32>],
    types: &mut TypeTable,
) -> Result<Numbered, NoMemory>
    requires { AreFunctionNumbers whole.now.sources functions.now }
    ensures numbered { IfOk result
        (AreNumbered whole.now functions.now main points.now types.new) }
    ensures slots { IfOk result (λ found. length found.slots.items ≡ functions.now.count) }
    ensures typed { IfOk result (λ found. HaveKnownTypes (length types.new.types) found.roots.items) }
    ensures more { OnOk result (HasMore types.old types.new) }
{
    let arguments = arguments(main, types)?;
    let mut gathering = Gathering::new(alloc, arguments, main.spot)?;
    for source in 0..count_of(whole.sources.len())? {
        gather_source(
            alloc,
            whole,
            source,
            functions,
            points,
            types,
            &mut gathering,
        )?;
    }
    gathering.finished(count_arguments(main), types.count())
}
