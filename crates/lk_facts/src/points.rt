//! A program as its control points.
ghost use Rattle.std.specs.Prelude.{◌≡◌, ◌<◌, ◌≤◌, ◌-◌, ◌^◌, ◌&&◌, length, All, IfSome, is_some, slice_get, Some, true, ◌↔◌, IsTrue};
ghost use Rattle.lk_facts.specs.Program.{action_at, effect_at, value_type_at, next_of, live_at, function_at, site_at, entry_of, exit_of, value_site_of, parameter_of, parameters_of, slots_of, result_of, root_of_function, spot_of, name_of, place_of, enters_at};
ghost use Rattle.lk_facts.specs.InRange.{IsInRange, IsActionInRange, IsEffectInRange, IsHolderInRange, IsRootInRange, IsPlaceInRange, sizes_of};
ghost use Rattle.lk_facts.specs.Places.{IsNumberOf};

use crate::action::Action;
use crate::edge::Site;
use crate::effect::Effect;
use crate::initial::Initial;
use crate::place::Place;
use crate::program::Program;
use crate::root::{Holder, Root};
use crate::sizes::Sizes;
use lk_base::{MOST_LABELS, MOST_POINTS, Name, Spot};
use lk_types::{NodeId, TypeId, TypeTable};
use std::marker::Model;

/// A program as its control points, functions and roots. All numbers in it are in range.
pub struct Points {
    program: Program,
}

impl Drop for Points {
    fn drop(self) {
        let Points { program: _program } = self;
    }
}

impl Model for Points {
    ghost use Rattle.lk_facts.specs.declared.program.Program.{Program};

    ghost Value = { Program };

    ghost use Rattle.lk_facts.specs.InRange.{IsInRange};

    ghost view = { λ a. a.program };

    ghost invariant = { λ a. IsInRange a.program };
}

impl Points {
    /// Whether all numbers in these parts are in range, as `new` asks.
    pub fn fits(program: &Program) -> bool
        ensures { IsTrue result ↔ IsInRange program.now }
    {
        if program.points.len() > MOST_POINTS as usize
            || program.places.len() > MOST_LABELS as usize
            || program.functions.len() > u32::MAX as usize
            || program.roots.len() > u32::MAX as usize
        {
            return false;
        }
        let sizes = Sizes::of(program);
        program.main < sizes.functions
            && program.locations as usize <= program.places.len()
            && sizes.has_parts(program)
    }

    /// The program of these parts. It takes no memory.
    pub fn new(program: Program) -> Points
        requires { IsInRange program }
        ensures { result ≡ program }
    {
        Points { program }
    }

    /// The number of points, at most 65,536.
    pub fn count(&self) -> u32
        ensures value { result ≡ length self.now.points }
        ensures in_range { IsInRange self.now }
    {
        self.program.points.len() as u32
    }

    /// What a point does.
    pub fn action(&self, p: u32) -> &Action
        requires { p < length self.now.points }
        ensures value { action_at self.now p ≡ Some result.now }
        ensures in_range { IsActionInRange (sizes_of self.now) result.now }
    {
        &self.program.points.list()[p as usize].action
    }

    /// What a point's action is to the analysis.
    pub fn effect(&self, p: u32) -> Effect
        requires { p < length self.now.points }
        ensures value { effect_at self.now p ≡ Some result }
        ensures in_range { IsEffectInRange (sizes_of self.now) result }
    {
        self.action(p).effect()
    }

    /// The type of a point's value, or nothing where it gives none.
    pub fn value_type(&self, p: u32) -> Option<TypeId>
        requires { p < length self.now.points }
        ensures value { result ≡ value_type_at self.now p }
        ensures in_range { IfSome result (λ t. t < (sizes_of self.now).types) }
    {
        self.program.points.list()[p as usize].value
    }

    /// The successors of a point, in order. One is listed twice where two coincide.
    pub fn next(&self, p: u32) -> &[u32]
        requires { p < length self.now.points }
        ensures value { result.now ≡ next_of self.now p }
        ensures in_range { All (λ q. q < length self.now.points) result.now }
    {
        self.program.points.list()[p as usize].next.list()
    }

    /// The function that a point is a step of, or the number of functions where it is a step of none.
    pub fn function(&self, p: u32) -> u32
        requires { p < length self.now.points }
        ensures value { function_at self.now p ≡ Some result }
        ensures in_range { result ≤ length self.now.functions }
        ensures live_in_range { live_at self.now p ≡ true → result < length self.now.functions }
    {
        self.program.points.list()[p as usize].function
    }

    /// Whether successors lead to a point from the entry of its function.
    pub fn live(&self, p: u32) -> bool
        requires { p < length self.now.points }
        ensures { result ≡ live_at self.now p }
    {
        self.program.points.list()[p as usize].live
    }

    /// The place of a point in a source.
    pub fn spot(&self, p: u32) -> Spot
        requires { p < length self.now.points }
        ensures { spot_of self.now p ≡ Some result }
    {
        self.program.points.list()[p as usize].spot
    }

    /// The site of a point, or nothing where it is no live call or creation.
    pub fn site(&self, p: u32) -> Option<Site>
        requires { p < length self.now.points }
        ensures value { result ≡ site_at self.now p }
        ensures sited { is_some result ≡ (live_at self.now p && enters_at self.now p) }
        ensures in_range { IfSome result (λ i. i < self.now.sites) }
    {
        self.program.points.list()[p as usize].site
    }

    /// The number of functions.
    pub fn functions(&self) -> u32
        ensures { result ≡ length self.now.functions }
    {
        self.program.functions.len() as u32
    }

    /// The function `main` of external linkage.
    pub fn main(&self) -> u32
        ensures value { result ≡ self.now.main }
        ensures in_range { result < length self.now.functions }
    {
        self.program.main
    }

    /// What holds the parameter `k` of a function, counted from 1, or nothing where it has no such parameter.
    pub fn param(&self, f: u32, k: u32) -> Option<Holder>
        requires { f < length self.now.functions }
        ensures value { result ≡ parameter_of self.now f k }
        ensures in_range { IfSome result (IsHolderInRange (sizes_of self.now)) }
    {
        let place = k.checked_sub(1)?;
        self.program.functions.list()[f as usize]
            .parameters
            .get(place as usize)
            .copied()
    }

    /// What holds the parameters of a function, in their order.
    pub fn parameters(&self, f: u32) -> &[Holder]
        requires { f < length self.now.functions }
        ensures value { parameters_of self.now f ≡ Some result.now }
        ensures in_range { All (IsHolderInRange (sizes_of self.now)) result.now }
    {
        self.program.functions.list()[f as usize].parameters.list()
    }

    /// The types of the slots of a function, by the numbers of the slots.
    pub fn slots(&self, f: u32) -> &[TypeId]
        requires { f < length self.now.functions }
        ensures value { slots_of self.now f ≡ Some result.now }
        ensures in_range { All (λ t. t < (sizes_of self.now).types) result.now }
        ensures few { length result.now < 2 ^ 32 }
    {
        self.program.functions.list()[f as usize].slots.list()
    }

    /// The type of the result of a function.
    pub fn result(&self, f: u32) -> TypeId
        requires { f < length self.now.functions }
        ensures value { result_of self.now f ≡ Some result }
        ensures in_range { result < (sizes_of self.now).types }
    {
        self.program.functions.list()[f as usize].result
    }

    /// The name of a function.
    pub fn name(&self, f: u32) -> &Name
        requires { f < length self.now.functions }
        ensures { name_of self.now f ≡ Some result.now }
    {
        &self.program.functions.list()[f as usize].name
    }

    /// The root of a function.
    pub fn function_root(&self, f: u32) -> u32
        requires { f < length self.now.functions }
        ensures value { root_of_function self.now f ≡ Some result }
        ensures in_range { result < length self.now.roots }
    {
        self.program.functions.list()[f as usize].root
    }

    /// The point at which a function begins.
    pub fn entry(&self, f: u32) -> u32
        requires { f < length self.now.functions }
        ensures value { entry_of self.now f ≡ Some result }
        ensures in_range { result < length self.now.points }
    {
        self.program.functions.list()[f as usize].entry
    }

    /// The point to which the returns of a function lead.
    pub fn exit(&self, f: u32) -> u32
        requires { f < length self.now.functions }
        ensures value { exit_of self.now f ≡ Some result }
        ensures in_range { result < length self.now.points }
    {
        self.program.functions.list()[f as usize].exit
    }

    /// The own site of a function, or nothing where it isn't used as a value.
    pub fn value_site(&self, f: u32) -> Option<Site>
        requires { f < length self.now.functions }
        ensures value { result ≡ value_site_of self.now f }
        ensures in_range { IfSome result (λ i. i < self.now.sites) }
    {
        self.program.functions.list()[f as usize].value_site
    }

    /// The number of sites.
    pub fn sites(&self) -> u32
        ensures { result ≡ self.now.sites }
    {
        self.program.sites
    }

    /// The number of roots.
    pub fn roots(&self) -> u32
        ensures { result ≡ length self.now.roots }
    {
        self.program.roots.len() as u32
    }

    /// A root.
    pub fn root(&self, r: u32) -> &Root
        requires { r < length self.now.roots }
        ensures value { slice_get self.now.roots r ≡ Some result.now }
        ensures in_range { IsRootInRange (sizes_of self.now) result.now }
    {
        &self.program.roots.list()[r as usize]
    }

    /// The types of the program.
    pub fn types(&self) -> &TypeTable
        ensures { result.now ≡ self.now.types }
    {
        &self.program.types
    }

    /// What objects of static storage begin with, where that is named.
    pub fn initials(&self) -> &[Initial]
        ensures { result.now ≡ self.now.initials }
    {
        self.program.initials.list()
    }

    /// The number of locations. They are the labels from 0 on.
    pub fn locations(&self) -> u32
        ensures value { result ≡ self.now.locations }
        ensures few { result ≤ length self.now.places }
    {
        self.program.locations
    }

    /// The number of lock places. They are the labels after the locations.
    pub fn locks(&self) -> u32
        ensures value { result ≡ length self.now.places - self.now.locations }
        ensures few { length self.now.places ≤ 65536 }
    {
        self.program.places.len() as u32 - self.program.locations
    }

    /// The place of the location or lock place `n`, counted as labels count them.
    pub fn place(&self, n: u32) -> Place
        requires { n < length self.now.places }
        ensures value { slice_get self.now.places n ≡ Some result }
        ensures in_range { IsPlaceInRange (sizes_of self.now) result }
    {
        self.program.places.list()[n as usize]
    }

    /// The number of the location or lock place that is this part of a root, or nothing where it is neither.
    pub fn place_number(&self, root: u32, node: NodeId) -> Option<u32>
        ensures value { IsNumberOf self.now.places (place_of root node) result }
        ensures in_range { IfSome result (λ n. n < length self.now.places) }
    {
        self.program.places.find(Place { root, node })
    }
}
