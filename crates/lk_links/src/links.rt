//! The ways from the points of a program into functions.
ghost use Rattle.std.specs.Prelude.{◌≡◌, ◌<◌, ◌↔◌, ℕ, true, Some, length, All, IfOk, IfSome};
ghost use Rattle.std.specs.List.{filter_map};
ghost use Rattle.lk_facts.specs.Facts.{basis_of};
ghost use Rattle.lk_facts.specs.Program.{live_at, effect_at};
ghost use Rattle.lk_facts.specs.declared.effect.Effect.TheVariants.{RunsThrough};
ghost use Rattle.lk_links.specs.Links.{AreLinks, AreLinksAt, links_at};
ghost use Rattle.lk_links.specs.Making.{MayPointTo, entering, function_named, value_link};
ghost use Rattle.lk_sets.specs.Ids.{has_id};
ghost use Rattle.lk_sets.specs.Rows.{row_of};

use crate::link::Link;
use lk_base::{NoMemory, Seq};
use lk_facts::{Effect, Facts, Label, RootKind, Way};
use lk_sets::IdSet;
use std::alloc::Global;
use std::marker::Model;

/// The links of a program. A contract sees them as lists, one for each point.
#[derive(Drop)]
pub struct Links {
    at: Vec<Seq<Link>>,
}

impl Model for Links {
    ghost use Rattle.std.specs.Prelude.{List};
    ghost use Rattle.lk_links.specs.declared.link.Link.{Link};

    ghost Value = { List (List Link) };

    ghost view = { λ links. links.at.items };
}

impl Links {
    /// The links of all points: one for a live call or creation of a function by its number,
    /// and for a live call through a pointer one for each function that the operand may point
    /// to and that is used as a value.
    pub fn new(alloc: Global, facts: &Facts<'_>) -> Result<Links, NoMemory>
        ensures { IfOk result (AreLinks (basis_of facts.now)) }
    {
        let mut at = Vec::new(alloc);
        for point in 0..facts.points().count() {
            at.push(Seq::new(links_of(alloc, facts, point)?))?;
        }
        Ok(Links { at })
    }

    /// The links of a point.
    pub fn at(&self, point: u32) -> &[Link]
        requires { point < length self.now }
        ensures { result.now ≡ links_at self.now point }
    {
        self.at[point as usize].list()
    }
}

/// The links of a point.
fn links_of(alloc: Global, facts: &Facts<'_>, point: u32) -> Result<Vec<Link>, NoMemory>
    requires { point < length facts.now.program.points }
    ensures { IfOk result (λ links. AreLinksAt (basis_of facts.now) point links.items) }
{
    if !facts.points().live(point) {
        return Ok(Vec::new(alloc));
    }
    match facts.points().effect(point) {
        Effect::Runs(below) => link_through_site(alloc, facts, point, below, false),
        Effect::Starts(below) => link_through_site(alloc, facts, point, below, true),
        Effect::RunsThrough(a) => links_of_values(alloc, facts, point, a),
        Effect::Nothing
        | Effect::Reads(_)
        | Effect::Writes(_)
        | Effect::Takes(_)
        | Effect::Frees(_) => Ok(Vec::new(alloc)),
    }
}

/// The link of a live call or creation of a function by its number.
fn link_through_site(
    alloc: Global,
    facts: &Facts<'_>,
    point: u32,
    below: u32,
    starts: bool,
) -> Result<Vec<Link>, NoMemory>
    requires point { point < length facts.now.program.points }
    requires below { below < length facts.now.program.functions }
    requires live { live_at facts.now.program point ≡ true }
    requires enters { effect_at facts.now.program point ≡ Some (entering starts below) }
    ensures { IfOk result (λ links. AreLinksAt (basis_of facts.now) point links.items) }
{
    let Some(site) = facts.points().site(point) else {
        unreachable!()
    };
    let link = Link {
        point,
        above: facts.points().function(point),
        below,
        way: Way::Through(site),
        starts,
    };
    Ok(vec![in alloc; link]?)
}

/// The links of a call through a pointer.
fn links_of_values(
    alloc: Global,
    facts: &Facts<'_>,
    point: u32,
    a: u32,
) -> Result<Vec<Link>, NoMemory>
    requires point { point < length facts.now.program.points }
    requires live { live_at facts.now.program point ≡ true }
    requires calls { effect_at facts.now.program point ≡ Some (RunsThrough a) }
    ensures { IfOk result (λ links. AreLinksAt (basis_of facts.now) point links.items) }
{
    let functions = functions_at(alloc, facts, a)?;
    let above = facts.points().function(point);
    let links = links_to_values(alloc, facts, point, above, &functions)?;
    Ok(links)
}

/// A link of a point to each of the functions that is used as a value.
fn links_to_values(
    alloc: Global,
    facts: &Facts<'_>,
    point: u32,
    above: u32,
    functions: &IdSet,
) -> Result<Vec<Link>, NoMemory>
    requires { All (λ g. g < length facts.now.program.functions) functions.now }
    ensures { IfOk result (λ links. links.items
        ≡ filter_map (value_link facts.now.program point above) functions.now) }
{
    let mut links = Vec::new(alloc);
    for below in functions.ids() {
        if let Some(site) = facts.points().value_site(*below) {
            links.push(Link {
                point,
                above,
                below: *below,
                way: Way::AsValue(site),
                starts: false,
            })?;
        }
    }
    Ok(links)
}

/// The functions that an operand may point to.
fn functions_at(alloc: Global, facts: &Facts<'_>, a: u32) -> Result<IdSet, NoMemory>
    ensures members { IfOk result (λ ids. (g : ℕ) →
        (has_id ids g ≡ true) ↔ MayPointTo (basis_of facts.now) a g) }
    ensures in_range { IfOk result (λ ids. All (λ g. g < length facts.now.program.functions) ids) }
{
    let Some(target) = facts.labels().target(a) else {
        return Ok(IdSet::empty(alloc));
    };
    let ids = functions_named(alloc, facts, target)?;
    let functions = IdSet::from_list(alloc, &ids)?;
    Ok(functions)
}

/// The functions that are named by the origins of a label.
fn functions_named(alloc: Global, facts: &Facts<'_>, target: Label) -> Result<Vec<u32>, NoMemory>
    requires { target < length facts.now.labels.entries }
    ensures members { IfOk result (λ ids. ids.items
        ≡ filter_map (function_named (basis_of facts.now)) (row_of facts.now.origins.all target)) }
    ensures in_range { IfOk result (λ ids. All (λ g. g < length facts.now.program.functions) ids.items) }
{
    let mut ids = Vec::new(alloc);
    for origin in facts.origins().all().row(target.0) {
        if let Some(function) = function_named(facts, Label(origin)) {
            ids.push(function)?;
        }
    }
    Ok(ids)
}

/// The function that a label names, where it names one.
fn function_named(facts: &Facts<'_>, label: Label) -> Option<u32>
    requires { label < length facts.now.labels.entries }
    ensures value { result ≡ function_named (basis_of facts.now) label }
    ensures in_range { IfSome result (λ g. g < length facts.now.program.functions) }
{
    let root = facts.labels().root(label);
    if root >= facts.points().roots() {
        return None;
    }
    let root = facts.points().root(root);
    match root.kind {
        RootKind::Function => root.function,
        RootKind::Global
        | RootKind::Static
        | RootKind::Local
        | RootKind::Heap { .. }
        | RootKind::Text
        | RootKind::Argv
        | RootKind::Args => None,
    }
}
