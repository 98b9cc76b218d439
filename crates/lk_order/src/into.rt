//! The links of a program, by the functions that they go into.
ghost use Rattle.std.specs.Prelude.{◌≡◌, ◌≤◌, length, IfOk};
ghost use Rattle.lk_facts.specs.Facts.{basis_of};
ghost use Rattle.lk_links.specs.Links.{AreLinks};
ghost use Rattle.lk_rise.specs.Links.{AreLinksBelow, AreLinksInto, going_into};

use lk_base::{NoMemory, Seq};
use lk_facts::Facts;
use lk_links::{Link, Links};
use std::alloc::Global;

/// The links of the first so many points.
fn links_below(alloc: Global, links: &Links, points: u32) -> Result<Vec<Link>, NoMemory>
    requires { points ≤ length links.now }
    ensures { IfOk result (λ all. AreLinksBelow links.now points all.items) }
{
    let mut all = Vec::new(alloc);
    for point in 0..points {
        all.extend_from_slice(links.at(point))?;
    }
    Ok(all)
}

/// Those of the links that go into a function.
fn going_into(alloc: Global, all: &[Link], function: u32) -> Result<Vec<Link>, NoMemory>
    ensures { IfOk result (λ into. into.items ≡ going_into all.now function) }
{
    let mut into = Vec::new(alloc);
    for link in all {
        if link.below == function {
            into.push(*link)?;
        }
    }
    Ok(into)
}

/// For each function the links that go into it.
pub(crate) fn links_into(
    alloc: Global,
    facts: &Facts<'_>,
    links: &Links,
) -> Result<Vec<Seq<Link>>, NoMemory>
    requires { AreLinks (basis_of facts.now) links.now }
    ensures functions { IfOk result (λ into. length into.items ≡ length facts.now.program.functions) }
    ensures links { IfOk result (λ into. AreLinksInto (basis_of facts.now) into.items) }
{
    let all = links_below(alloc, links, facts.points().count())?;
    let mut into = Vec::new(alloc);
    for function in 0..facts.points().functions() {
        into.push(Seq::new(going_into(alloc, &all, function)?))?;
    }
    Ok(into)
}
