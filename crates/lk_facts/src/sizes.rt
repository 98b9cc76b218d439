//! Whether the numbers in the parts of a program are in range.
ghost use Rattle.std.specs.Prelude.{◌≡◌, ◌<◌, ◌^◌, ◌↔◌, IsTrue, All, length};
ghost use Rattle.lk_facts.specs.InRange as range;
ghost use Rattle.lk_facts.specs.InRange.{sizes_of};

use crate::action::Action;
use crate::function::Function;
use crate::initial::{Initial, InitialValue};
use crate::place::Place;
use crate::point::Point;
use crate::program::Program;
use crate::root::{Holder, Root};
use lk_types::TypeId;

/// How many points, functions, roots, types and sites a program has.
#[derive(Clone, Copy)]
pub struct Sizes {
    /// The number of points.
    pub points: u32,
    /// The number of functions.
    pub functions: u32,
    /// The number of roots.
    pub roots: u32,
    /// The number of types.
    pub types: u32,
    /// The number of sites.
    pub sites: u32,
}

impl Sizes {
    /// How many there are of each in a program.
    pub(crate) fn of(program: &Program) -> Sizes
        requires points { length program.now.points < 2 ^ 32 }
        requires functions { length program.now.functions < 2 ^ 32 }
        requires roots { length program.now.roots < 2 ^ 32 }
        ensures { result ≡ sizes_of program.now }
    {
        Sizes {
            points: program.points.len() as u32,
            functions: program.functions.len() as u32,
            roots: program.roots.len() as u32,
            types: program.types.count(),
            sites: program.sites,
        }
    }

    /// Whether the operands of an action are points.
    fn has_operands(self, action: &Action) -> bool
        ensures { IsTrue result ↔ range.AllOperands (λ a. a < self.points) action.now }
    {
        match action {
            Action::Value { .. }
            | Action::Null { .. }
            | Action::Func { .. }
            | Action::SelfId
            | Action::Root(_)
            | Action::Text(_)
            | Action::SlotRead(_)
            | Action::Skip
            | Action::ExitThread
            | Action::ExitProcess => true,
            Action::Field { a, .. }
            | Action::Read { a, .. }
            | Action::SlotWrite { a, .. }
            | Action::Unary { a, .. }
            | Action::Convert { a, .. }
            | Action::Branch(a)
            | Action::Switch { a, .. }
            | Action::Create { a, .. }
            | Action::StoreId(a)
            | Action::Join(a)
            | Action::Detach(a)
            | Action::Lock(a)
            | Action::Unlock(a)
            | Action::Retake(a)
            | Action::Init(a)
            | Action::Destroy(a)
            | Action::Signal(a)
            | Action::Free(a)
            | Action::Scan(a)
            | Action::Fill { a, .. } => *a < self.points,
            Action::Index { a, b, .. }
            | Action::Write { a, b, .. }
            | Action::Binary { a, b, .. }
            | Action::Release { cond: a, mutex: b } => *a < self.points && *b < self.points,
            Action::Compute { args, .. } | Action::Call { args, .. } => {
                args.list().iter().all(|a| *a < self.points)
            }
            Action::PointerCall { a, args } => {
                *a < self.points && args.list().iter().all(|b| *b < self.points)
            }
            Action::Return(a) | Action::Allocate { count: a, .. } => {
                a.is_none_or(|b| b < self.points)
            }
        }
    }

    /// Whether the functions, roots and types that an action names are there.
    fn has_names(self, action: &Action) -> bool
        ensures { IsTrue result ↔ range.AreNamesInRange self action.now }
    {
        match action {
            Action::SelfId
            | Action::Field { .. }
            | Action::Index { .. }
            | Action::Read { .. }
            | Action::Write { .. }
            | Action::SlotRead(_)
            | Action::SlotWrite { .. }
            | Action::Unary { .. }
            | Action::Binary { .. }
            | Action::Branch(_)
            | Action::Switch { .. }
            | Action::Skip
            | Action::PointerCall { .. }
            | Action::Return(_)
            | Action::StoreId(_)
            | Action::Join(_)
            | Action::Detach(_)
            | Action::ExitThread
            | Action::ExitProcess
            | Action::Lock(_)
            | Action::Unlock(_)
            | Action::Release { .. }
            | Action::Retake(_)
            | Action::Init(_)
            | Action::Destroy(_)
            | Action::Signal(_)
            | Action::Free(_)
            | Action::Scan(_) => true,
            Action::Value { ty, .. }
            | Action::Null { ty }
            | Action::Compute { ty, .. }
            | Action::Convert { ty, .. } => self.has_type(*ty),
            Action::Func { function }
            | Action::Call { function, .. }
            | Action::Create { function, .. } => { *function < self.functions }
            Action::Root(root) | Action::Text(root) => *root < self.roots,
            Action::Allocate { ty, root, .. } => self.has_type(*ty) && *root < self.roots,
            Action::Fill { place, .. } => self.has_place(*place),
        }
    }

    /// Whether a type is there.
    fn has_type(self, ty: TypeId) -> bool
        ensures { IsTrue result ↔ (ty < self.types) }
    {
        ty.0 < self.types
    }

    /// Whether the root of a place is there.
    fn has_place(self, place: Place) -> bool
        ensures { IsTrue result ↔ range.IsPlaceInRange self place }
    {
        place.root < self.roots
    }

    /// Whether the numbers in an action are in range.
    fn has_action(self, action: &Action) -> bool
        ensures { IsTrue result ↔ range.IsActionInRange self action.now }
    {
        self.has_operands(action) && self.has_names(action)
    }

    /// Whether a point has a site in range where it is a live call or creation, and none elsewhere.
    fn has_site_of(self, point: &Point) -> bool
        ensures { IsTrue result ↔ range.IsSited self point.now }
    {
        let is_sited = point.live && point.action.effect().entered().is_some();
        match point.site {
            Some(i) => is_sited && i.0 < self.sites,
            None => !is_sited,
        }
    }

    /// Whether the numbers in a point are in range, and it has a site just where
    /// it is a live call or creation.
    fn has_point(self, point: &Point) -> bool
        ensures { IsTrue result ↔ range.IsPointInRange self point.now }
    {
        self.has_action(&point.action)
            && point.value.is_none_or(|ty| self.has_type(ty))
            && point.next.list().iter().all(|q| *q < self.points)
            && point.function <= self.functions
            && (!point.live || point.function < self.functions)
            && self.has_site_of(point)
    }

    /// Whether the numbers in a holder are in range.
    fn has_holder(self, holder: Holder) -> bool
        ensures { IsTrue result ↔ range.IsHolderInRange self holder }
    {
        match holder {
            Holder::Root(r) => r < self.roots,
            Holder::Slot(f, _) | Holder::Result(f) => f < self.functions,
            Holder::Point(p) => p < self.points,
        }
    }

    /// Whether the numbers in a function are in range.
    fn has_function(self, function: &Function) -> bool
        ensures { IsTrue result ↔ range.IsFunctionInRange self function.now }
    {
        function.root < self.roots
            && function.entry < self.points
            && function.exit < self.points
            && function
                .parameters
                .list()
                .iter()
                .all(|holder| self.has_holder(*holder))
            && function.parameters.len() <= u32::MAX as usize
            && function.slots.list().iter().all(|ty| self.has_type(*ty))
            && function.slots.len() <= u32::MAX as usize
            && self.has_type(function.result)
            && function.value_site.is_none_or(|i| i.0 < self.sites)
    }

    /// Whether the numbers in a root are in range.
    fn has_root(self, root: &Root) -> bool
        ensures { IsTrue result ↔ range.IsRootInRange self root.now }
    {
        self.has_type(root.ty)
            && root.function.is_none_or(|f| f < self.functions)
            && root.point.is_none_or(|p| p < self.points)
    }

    /// Whether the numbers in an entry of a static initialiser are in range.
    fn has_initial(self, initial: &Initial) -> bool
        ensures { IsTrue result ↔ range.IsInitialInRange self initial.now }
    {
        initial.root < self.roots
            && match &initial.value {
                InitialValue::Number(_) | InitialValue::Null | InitialValue::Ready => true,
                InitialValue::Function(f) => *f < self.functions,
                InitialValue::Address { root, .. } => *root < self.roots,
            }
    }

    /// Whether the numbers in points are in range.
    fn has_points(self, points: &[Point]) -> bool
        ensures { IsTrue result ↔ All (range.IsPointInRange self) points.now }
    {
        points.iter().all(|point| self.has_point(point))
    }

    /// Whether the numbers in functions are in range.
    fn has_functions(self, functions: &[Function]) -> bool
        ensures { IsTrue result ↔ All (range.IsFunctionInRange self) functions.now }
    {
        functions.iter().all(|function| self.has_function(function))
    }

    /// Whether the numbers in roots are in range.
    fn has_roots(self, roots: &[Root]) -> bool
        ensures { IsTrue result ↔ All (range.IsRootInRange self) roots.now }
    {
        roots.iter().all(|root| self.has_root(root))
    }

    /// Whether the roots of places are there.
    fn has_places(self, places: &[Place]) -> bool
        ensures { IsTrue result ↔ All (range.IsPlaceInRange self) places.now }
    {
        places.iter().all(|place| self.has_place(*place))
    }

    /// Whether the numbers in the entries of static initialisers are in range.
    fn has_initials(self, initials: &[Initial]) -> bool
        ensures { IsTrue result ↔ All (range.IsInitialInRange self) initials.now }
    {
        initials.iter().all(|initial| self.has_initial(initial))
    }

    /// Whether the numbers in each part of a program are in range.
    pub(crate) fn has_parts(self, program: &Program) -> bool
        ensures { IsTrue result ↔ range.ArePartsInRange self program.now }
    {
        self.has_points(program.points.list())
            && self.has_functions(program.functions.list())
            && self.has_roots(program.roots.list())
            && self.has_places(program.places.list())
            && self.has_initials(program.initials.list())
    }
}
