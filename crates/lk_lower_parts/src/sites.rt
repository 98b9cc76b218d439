//! The sites of calls, creations and functions that are used as values.
ghost use Rattle.std.specs.Prelude.{◌≡◌, true, IfOk, OnOk, length, slice_set};
ghost use Rattle.lk_lower_parts.specs.Sites as spec;
ghost use Rattle.lk_lower_parts.specs.Sites.{AreUsed, HaveSites, behind_sites, behind_values, has_site, site_by, sited, valued};

use crate::counts::behind;
use lk_base::NoMemory;
use lk_facts::{Action, Function, Point, Site};
use std::alloc::Global;

/// Whether a point has a site: it is a live call or creation.
fn is_site(point: &Point) -> bool
    ensures { result ≡ has_site point.now }
{
    point.live && point.action.effect().entered().is_some()
}

/// The site of one that has it, where this is the number of the next.
fn site_of(has: bool, next: u32) -> Option<Site>
    ensures { result ≡ site_by has next }
{
    if has { Some(Site(next)) } else { None }
}

/// The number of the next site behind one that may have it.
fn behind_site(has: bool, next: u32) -> Result<u32, NoMemory>
    ensures { IfOk result (λ on. on ≡ spec.behind_site has next) }
{
    if has { behind(next, 1) } else { Ok(next) }
}

/// Gives each live call and creation its site, in the order of points. Answers the number behind them.
fn give_points(points: &mut Vec<Point>) -> Result<u32, NoMemory>
    ensures points { OnOk result (points.new.items ≡ sited 0 points.old.items) }
    ensures behind { IfOk result (λ next. next ≡ behind_sites 0 points.old.items) }
{
    let mut next = 0;
    for p in 0..points.len() {
        let has = is_site(&points[p]);
        points[p].site = site_of(has, next);
        next = behind_site(has, next)?;
    }
    Ok(next)
}

/// Notes that a point gives a pointer to a function.
fn note(function: u32, used: &mut Vec<bool>)
    ensures { used.new.items ≡ slice_set used.old.items function true }
{
    let f = function as usize;
    if f < used.len() {
        used[f] = true;
    }
}

/// Of each function whether a point gives a pointer to it.
fn used(alloc: Global, points: &[Point], functions: usize) -> Result<Vec<bool>, NoMemory>
    ensures long { IfOk result (λ used. length used.items ≡ functions) }
    ensures each { IfOk result (λ used. AreUsed points.now functions used.items) }
{
    let mut used = vec![in alloc; false; functions]?;
    for point in points {
        if let Action::Func { function } = &point.action {
            note(*function, &mut used);
        }
    }
    Ok(used)
}

/// Gives the functions that are used as values their sites, in their order, from `first` on.
/// Answers the number behind them.
fn give_functions(functions: &mut Vec<Function>, used: &[bool], first: u32) -> Result<u32, NoMemory>
    requires { length used.now ≡ length functions.old.items }
    ensures functions { OnOk result (functions.new.items ≡ valued first used.now functions.old.items) }
    ensures behind { IfOk result (λ next. next ≡ behind_values first used.now) }
{
    let mut next = first;
    for f in 0..functions.len() {
        functions[f].value_site = site_of(used[f], next);
        next = behind_site(used[f], next)?;
    }
    Ok(next)
}

/// Gives each live call and creation its site, in the order of points, and behind them each function that is
/// used as a value, in their order. Answers how many sites there are.
pub fn give_sites(
    alloc: Global,
    points: &mut Vec<Point>,
    functions: &mut Vec<Function>,
) -> Result<u32, NoMemory>
    ensures { IfOk result (HaveSites points.old.items points.new.items
        functions.old.items functions.new.items) }
{
    let used = used(alloc, points, functions.len())?;
    let next = give_points(points)?;
    give_functions(functions, &used, next)
}
