//! Which names of a function mean one and the same mutex each time that it runs.
ghost use Rattle.std.specs.Prelude.{◌≡◌, ◌<◌, ◌↔◌, ◌++◌, ◌∷◌, ◌^◌, [], ℕ, true, All, Contains, IfOk, IfSome, IsTrue, OnOk, length};
ghost use Rattle.lk_facts.specs.Labels.{is_origin_at};
ghost use Rattle.lk_held.specs.Progress.{Progress};
ghost use Rattle.lk_links.specs.declared.link.Link.{Link};
ghost use Rattle.lk_order.specs.Acts.{basis_in, linear_in, functions_in, labels_in};
ghost use Rattle.lk_order.specs.Asking.{IsGoalBelow, AreFoundUp, IsAskedOutside, IsOutsideGoal, OneIsThrough, Agrees, AgreeAsValue, IsAskedByOne, Follows, AreAsked, AllKnown, IsSettled, Learns, unknown};
ghost use Rattle.lk_order.specs.Same.{Same, HasSite, MeanOneLock};
ghost use Rattle.lk_rise.specs.Links.{AreLinksInto, links_into};
ghost use Rattle.lk_order.specs.Work.{Finds};

use crate::acts::Acts;
use crate::up::up;
use indexmap::IndexSet;
use lk_base::NoMemory;
use lk_facts::{Label, Way};
use lk_links::{Link, only_in_row};
use std::alloc::Global;

/// Two names in a function, of which is asked whether they mean one mutex.
#[derive(Clone, Copy, PartialEq, Eq, Hash)]
pub(crate) struct Goal {
    /// The function.
    function: u32,
    /// The one label.
    first: u32,
    /// The other label.
    second: u32,
}

/// Whether a goal is known.
fn is_known(goal: Goal, known: &IndexSet<Goal>) -> bool
    ensures { IsTrue result ↔ Contains known.now.keys goal }
{
    known.contains(&goal)
}

/// Puts a goal, unless it is there.
fn put_goal(goal: Goal, goals: &mut IndexSet<Goal>) -> Result<(), NoMemory>
    ensures { OnOk result (Finds (λ other. goal ≡ other) goals.old.keys goals.new.keys) }
{
    goals.insert(goal)?;
    Ok(())
}

/// Puts a goal that isn't there.
fn learn(goal: Goal, known: &mut IndexSet<Goal>) -> Result<(), NoMemory>
    requires { Contains known.old.keys goal → ⊥ }
    ensures keys { OnOk result (known.new.keys ≡ known.old.keys ++ goal ∷ []) }
    ensures few { length known.old.keys < 2 ^ 63 }
{
    prove!(known.len() < usize::MAX);
    known.insert(goal)?;
    Ok(())
}

/// Whether one of the links is by a call or creation.
fn some_through(links: &[Link]) -> bool
    ensures { IsTrue result ↔ OneIsThrough links.now }
{
    for link in links {
        match link.way {
            Way::Through(_) => return true,
            Way::AsValue(_) => {}
        }
    }
    false
}

impl Acts<'_, '_> {
    /// Whether both labels can mean one linear lock place alone.
    fn mean_one_lock(&self, x: u32, y: u32) -> bool
        requires x { x < length self.now.labels.now.entries }
        requires y { y < length self.now.labels.now.entries }
        ensures { IsTrue result ↔ MeanOneLock (basis_in self.now) (linear_in self.now) x y }
    {
        let all = self.facts.origins().all();
        match only_in_row(all, x) {
            Some(place) => only_in_row(all, y) == Some(place) && self.linear.has(place),
            None => false,
        }
    }

    /// Whether both labels are origins.
    fn are_origins(&self, x: u32, y: u32) -> bool
        requires x { x < length self.now.labels.now.entries }
        requires y { y < length self.now.labels.now.entries }
        ensures { IsTrue result ↔ ((is_origin_at self.now.labels.now x ≡ true)
            × (is_origin_at self.now.labels.now y ≡ true)) }
    {
        self.labels.is_origin(Label(x)) && self.labels.is_origin(Label(y))
    }

    /// What the two labels are outside, where each is just one label there.
    fn both_up(
        &self,
        alloc: Global,
        way: &Way,
        x: u32,
        y: u32,
    ) -> Result<Option<(u32, u32)>, NoMemory>
        requires x { x < length self.now.labels.now.entries }
        requires y { y < length self.now.labels.now.entries }
        ensures value { IfOk result (AreFoundUp (basis_in self.now) (linear_in self.now) way.now x y) }
        ensures in_range { IfOk result (λ found. IfSome found (λ both.
            (both.0 < length self.now.labels.now.entries) × (both.1 < length
            self.now.labels.now.entries))) }
    {
        let Some(first) = up(alloc, self.facts, way, x)? else {
            return Ok(None);
        };
        let Some(second) = up(alloc, self.facts, way, y)? else {
            return Ok(None);
        };
        Ok(Some((first, second)))
    }

    /// What is asked outside a link, by a call or creation, where the labels are just one label each there.
    fn goal_outside(&self, alloc: Global, goal: Goal, link: &Link) -> Result<Option<Goal>, NoMemory>
        requires goal { IsGoalBelow (functions_in self.now) (labels_in self.now) goal }
        requires above { link.now.above < length self.now.points.now.functions }
        ensures value { IfOk result (IsAskedOutside (basis_in self.now) (linear_in self.now) goal
            link.now) }
        ensures in_range { IfOk result (λ found. IfSome found (IsGoalBelow (functions_in self.now)
            (labels_in self.now))) }
    {
        match self.both_up(alloc, &link.way, goal.first, goal.second)? {
            Some((first, second)) => Ok(Some(Goal {
                function: link.above,
                first,
                second,
            })),
            None => Ok(None),
        }
    }

    /// Whether the two labels mean one linear lock place through the function's own site, where it has one.
    fn agree_as_value(&self, alloc: Global, goal: Goal) -> Result<bool, NoMemory>
        requires goal { IsGoalBelow (functions_in self.now) (labels_in self.now) goal }
        ensures { IfOk result (λ b. IsTrue b ↔ AgreeAsValue (basis_in self.now) (linear_in self.now) goal) }
    {
        let Some(site) = self.points.value_site(goal.function) else {
            return Ok(true);
        };
        match self.both_up(alloc, &Way::AsValue(site), goal.first, goal.second)? {
            Some((first, second)) => Ok(self.mean_one_lock(first, second)),
            None => Ok(false),
        }
    }

    /// Whether what is asked outside a link is known, where it is a call or creation.
    fn agrees(
        &self,
        alloc: Global,
        goal: Goal,
        link: &Link,
        known: &IndexSet<Goal>,
    ) -> Result<bool, NoMemory>
        requires goal { IsGoalBelow (functions_in self.now) (labels_in self.now) goal }
        requires above { link.now.above < length self.now.points.now.functions }
        ensures { IfOk result (λ b. IsTrue b ↔ Agrees (basis_in self.now) (linear_in self.now)
            known.now.keys goal link.now) }
    {
        match link.way {
            Way::AsValue(_) => Ok(true),
            Way::Through(_) => match self.goal_outside(alloc, goal, link)? {
                Some(outside) => Ok(is_known(outside, known)),
                None => Ok(false),
            },
        }
    }

    /// Whether what is asked outside all calls and creations is known.
    fn all_agree(
        &self,
        alloc: Global,
        goal: Goal,
        links: &[Link],
        known: &IndexSet<Goal>,
    ) -> Result<bool, NoMemory>
        requires goal { IsGoalBelow (functions_in self.now) (labels_in self.now) goal }
        requires above { All (λ link. link.above < length self.now.points.now.functions) links.now }
        ensures { IfOk result (λ b. IsTrue b
            ↔ ((link : Link) → Contains links.now link → Agrees (basis_in self.now) (linear_in self.now)
            known.now.keys goal link)) }
    {
        for link in links {
            if !self.agrees(alloc, goal, link, known)? {
                return Ok(false);
            }
        }
        Ok(true)
    }

    /// Whether a function has a site, by the links into it.
    fn has_site(&self, function: u32, links: &[Link]) -> bool
        requires function { function < length self.now.points.now.functions }
        requires into { AreLinksInto (basis_in self.now) self.now.into.now }
        requires links { links.now ≡ links_into self.now.into.now function }
        ensures { IsTrue result ↔ HasSite (basis_in self.now) (linear_in self.now) function }
    {
        match self.points.value_site(function) {
            Some(_) => true,
            None => some_through(links),
        }
    }

    /// Whether the two names mean one mutex, by what is known.
    fn follows(&self, alloc: Global, goal: Goal, known: &IndexSet<Goal>) -> Result<bool, NoMemory>
        requires goal { IsGoalBelow (functions_in self.now) (labels_in self.now) goal }
        requires into { AreLinksInto (basis_in self.now) self.now.into.now }
        requires functions { length self.now.into.now ≡ length self.now.points.now.functions }
        ensures { IfOk result (λ b. IsTrue b ↔ Follows (basis_in self.now) (linear_in self.now)
            known.now.keys goal) }
    {
        if self.mean_one_lock(goal.first, goal.second) {
            return Ok(true);
        }
        if self.are_origins(goal.first, goal.second) {
            return Ok(false);
        }
        let links = self.into[goal.function as usize].list();
        if !self.has_site(goal.function, links) {
            return Ok(false);
        }
        if !self.agree_as_value(alloc, goal)? {
            return Ok(false);
        }
        self.all_agree(alloc, goal, links, known)
    }

    /// Puts what is asked outside a link to the goals, where the labels are just one label each there.
    fn put_goal_outside(
        &self,
        alloc: Global,
        goal: Goal,
        link: &Link,
        goals: &mut IndexSet<Goal>,
    ) -> Result<(), NoMemory>
        requires goal { IsGoalBelow (functions_in self.now) (labels_in self.now) goal }
        requires above { link.now.above < length self.now.points.now.functions }
        requires goals { All (IsGoalBelow (functions_in self.now) (labels_in self.now)) goals.old.keys }
        ensures adds { OnOk result (Finds (IsOutsideGoal (basis_in self.now) (linear_in self.now) goal
            link.now.above link.now.way) goals.old.keys goals.new.keys) }
        ensures in_range { OnOk result (All (IsGoalBelow (functions_in self.now) (labels_in self.now))
            goals.new.keys) }
    {
        match self.goal_outside(alloc, goal, link)? {
            Some(outside) => put_goal(outside, goals),
            None => Ok(()),
        }
    }

    /// Puts what is asked outside the links into the function of a goal to the goals.
    fn put_outside(
        &self,
        alloc: Global,
        goal: Goal,
        goals: &mut IndexSet<Goal>,
    ) -> Result<(), NoMemory>
        requires goal { IsGoalBelow (functions_in self.now) (labels_in self.now) goal }
        requires into { AreLinksInto (basis_in self.now) self.now.into.now }
        requires functions { length self.now.into.now ≡ length self.now.points.now.functions }
        requires goals { All (IsGoalBelow (functions_in self.now) (labels_in self.now)) goals.old.keys }
        ensures adds { OnOk result (Finds (IsAskedByOne (basis_in self.now) (linear_in self.now)
            (links_into self.now.into.now goal.function) goal) goals.old.keys goals.new.keys) }
        ensures in_range { OnOk result (All (IsGoalBelow (functions_in self.now) (labels_in self.now))
            goals.new.keys) }
    {
        for link in self.into[goal.function as usize].list() {
            self.put_goal_outside(alloc, goal, link, goals)?;
        }
        Ok(())
    }

    /// A goal, and all that is asked outside for it.
    fn goals(&self, alloc: Global, goal: Goal) -> Result<IndexSet<Goal>, NoMemory>
        requires goal { IsGoalBelow (functions_in self.now) (labels_in self.now) goal }
        requires into { AreLinksInto (basis_in self.now) self.now.into.now }
        requires functions { length self.now.into.now ≡ length self.now.points.now.functions }
        ensures there { IfOk result (λ goals. Contains goals.keys goal) }
        ensures asked { IfOk result (λ goals. AreAsked (basis_in self.now) (linear_in self.now)
            goals.keys) }
        ensures in_range { IfOk result (λ goals. All (IsGoalBelow (functions_in self.now) (labels_in
            self.now)) goals.keys) }
    {
        let mut goals = IndexSet::new(alloc);
        put_goal(goal, &mut goals)?;
        for k in 0..usize::MAX {
            let Some(next) = goals.get_index(k).copied() else {
                return Ok(goals);
            };
            self.put_outside(alloc, next, &mut goals)?;
        }
        prove!(goals.len() < usize::MAX);
        unreachable!()
    }

    /// Puts a goal to what is known, where it follows, and answers whether it was new.
    fn settle_one(
        &self,
        alloc: Global,
        goal: Goal,
        known: &mut IndexSet<Goal>,
    ) -> Result<bool, NoMemory>
        requires goal { IsGoalBelow (functions_in self.now) (labels_in self.now) goal }
        requires into { AreLinksInto (basis_in self.now) self.now.into.now }
        requires functions { length self.now.into.now ≡ length self.now.points.now.functions }
        ensures { IfOk result (Progress unknown (Learns (basis_in self.now) (linear_in self.now))
            (IsSettled (basis_in self.now) (linear_in self.now) goal) known.old.keys known.new.keys) }
    {
        if is_known(goal, known) {
            return Ok(false);
        }
        if !self.follows(alloc, goal, known)? {
            return Ok(false);
        }
        learn(goal, known)?;
        Ok(true)
    }

    /// Puts the goals that follow to what is known, and answers whether one was new.
    fn settle(
        &self,
        alloc: Global,
        goals: &IndexSet<Goal>,
        known: &mut IndexSet<Goal>,
    ) -> Result<bool, NoMemory>
        requires into { AreLinksInto (basis_in self.now) self.now.into.now }
        requires functions { length self.now.into.now ≡ length self.now.points.now.functions }
        requires goals { All (IsGoalBelow (functions_in self.now) (labels_in self.now)) goals.now.keys }
        ensures { IfOk result (Progress unknown (Learns (basis_in self.now) (linear_in self.now))
            (AllKnown (basis_in self.now) (linear_in self.now) goals.now.keys) known.old.keys
            known.new.keys) }
    {
        let mut changed = false;
        for goal in goals.as_slice() {
            changed |= self.settle_one(alloc, *goal, known)?;
        }
        Ok(changed)
    }

    /// Whether the two labels mean one mutex each time that the function runs.
    pub(crate) fn are_same(
        &self,
        alloc: Global,
        function: u32,
        x: u32,
        y: u32,
    ) -> Result<bool, NoMemory>
        requires function { function < length self.now.points.now.functions }
        requires x { x < length self.now.labels.now.entries }
        requires y { y < length self.now.labels.now.entries }
        requires into { AreLinksInto (basis_in self.now) self.now.into.now }
        requires functions { length self.now.into.now ≡ length self.now.points.now.functions }
        ensures { IfOk result (λ b. IsTrue b ↔ Same (basis_in self.now) (linear_in self.now) function x y) }
    {
        if self.mean_one_lock(x, y) {
            return Ok(true);
        }
        if self.are_origins(x, y) {
            return Ok(false);
        }
        let goal = Goal {
            function,
            first: x,
            second: y,
        };
        let goals = self.goals(alloc, goal)?;
        let mut known = IndexSet::new(alloc);
        while self.settle(alloc, &goals, &mut known)? {}
        Ok(is_known(goal, &known))
    }
}
