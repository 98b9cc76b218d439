//! The functions and objects of static storage that a source declares (C99 6.2.2, 6.2.4, 3).
ghost use Rattle.std.specs.Prelude.{◌≡◌, ◌∷◌, [], Some, IfOk, IfSome, OnOk, length};
ghost use Rattle.std.specs.Option.{option_map};
ghost use Rattle.lk_types.specs.Building.{IsLonger};
ghost use Rattle.lk_types.specs.Table.{IsKnown};
ghost use Rattle.lk_typed.specs.Declarations.{composite_if_equal};
ghost use Rattle.lk_typed.specs.Elements.{HasFewElements};
ghost use Rattle.lk_typed.specs.Meaning.{IsReady, meaning};
ghost use Rattle.lk_elaborator.specs.Gathering.{AreFinished, IsComposite, IsFinished, IsFirstOf, earlier};
ghost use Rattle.lk_elaborator.specs.Gathering.{BeginsEntity, BeginsWith, DeclaresAgain, PutsName};
ghost use Rattle.lk_elaborator.specs.Gathering.{Gathers, IsGathered, declaration_of, entity_at, entity_named};
ghost use Rattle.lk_elaborator.specs.Keeping.{KeepsNumbers, PutsNumber};
ghost use Rattle.lk_elaborator.specs.Rising.{Rises};

use crate::locals::put_number;
use crate::type_numbers::known;
use crate::unreached::nowhere;
use indexmap::IndexMap;
use lk_base::{Name, NoMemory, Seq, Spot};
use lk_check_decl::composite_if_equal;
use lk_found::Records;
use lk_typed::{Declaration, Defines, Entity, EntityKind, Linkage, Use};
use lk_types::{TypeId, TypeTable, predeclared_types_stay};
use std::alloc::Global;

/// A name that is an entity, as a declaration or a definition declares it.
#[derive(Drop)]
pub struct NamedEntity {
    pub name: Name,
    pub linkage: Linkage,
    pub kind: EntityKind,
    /// Where the name is declared, and the number of that node.
    pub spot: Spot,
    pub ordinal: u32,
    /// The type that is declared.
    pub ty: TypeId,
    pub defines: Defines,
    /// The number of the body in which a name without linkage stands.
    pub body: Option<u32>,
}

/// The entities of a source so far, in the order of their first declarations.
#[derive(Drop)]
pub struct Entities {
    alloc: Global,
    list: Vec<Entity>,
    /// The number of the node that declares the last name; 0 where there is none.
    last: u32,
    /// The entity of each node that declares one.
    by_ordinal: IndexMap<u32, u32>,
    /// The entity of each name of external linkage.
    external: IndexMap<Name, u32>,
    /// The entity of each name of internal linkage.
    internal: IndexMap<Name, u32>,
}

/// The first of two uses, of which there may be none.
fn earlier(before: Option<Use>, other: Option<Use>) -> Option<Use>
    ensures { result ≡ earlier before other }
{
    match (before, other) {
        (Some(a), Some(b)) => {
            if a.ordinal <= b.ordinal {
                Some(a)
            } else {
                Some(b)
            }
        }
        (Some(a), None) => Some(a),
        (None, b) => b,
    }
}

/// The first use of a name that these declarations declare.
fn first_use(records: &Records, declarations: &[Declaration]) -> Option<Use>
    ensures { IsFirstOf records.now.first_uses declarations.now result }
{
    let mut first = None;
    for declaration in declarations {
        first = earlier(first, records.first_use(declaration.ordinal));
    }
    first
}

/// The declaration of a name.
fn declaration_of(named: &NamedEntity) -> Declaration
    ensures { result ≡ declaration_of named.now }
{
    Declaration {
        spot: named.spot,
        ordinal: named.ordinal,
        ty: named.ty,
        defines: named.defines,
    }
}

/// The entity of a name that is declared for the first time.
fn entity_of(alloc: Global, named: NamedEntity) -> Result<Entity, NoMemory>
    ensures begins { IfOk result (BeginsWith named) }
    ensures alone { IfOk result (λ entity. entity.declarations ≡ declaration_of named ∷ []) }
{
    let mut declarations = Seq::new(Vec::new(alloc));
    declarations.push(declaration_of(&named))?;
    let NamedEntity {
        name,
        linkage,
        kind,
        ty,
        body,
        ..
    } = named;
    Ok(Entity {
        name,
        linkage,
        kind,
        ty,
        declarations,
        first_use: None,
        body,
    })
}

/// The composite of a type that a declaration gives and of that before it, where one is (C99 6.2.7).
fn composite_with(
    alloc: Global,
    types: &mut TypeTable,
    t: TypeId,
    before: Option<TypeId>,
) -> Result<TypeId, NoMemory>
    requires few { HasFewElements types.old }
    requires before { IfSome before (IsKnown types.old) }
    ensures means { IfOk result (λ made. meaning types.new made ≡
        composite_if_equal (meaning types.old t) (option_map (meaning types.old) before)) }
    ensures given { OnOk result (IsKnown types.old t) }
    ensures known { IfOk result (IsKnown types.new) }
    ensures longer { OnOk result (IsLonger types.old types.new) }
    ensures members { OnOk result (types.new.members ≡ types.old.members) }
    ensures ready { OnOk result (IsReady types.old → IsReady types.new) }
    ensures few { OnOk result (HasFewElements types.new) }
{
    let t = known(types, t)?;
    let made = composite_if_equal(alloc, types, t, before)?;
    types.is_table();
    predeclared_types_stay();
    Ok(made)
}

/// The composite of the types that declarations give, each of the next one and that of those before it
/// (C99 6.2.7).
fn composite_of(
    alloc: Global,
    types: &mut TypeTable,
    declarations: &[Declaration],
) -> Result<TypeId, NoMemory>
    requires few { HasFewElements types.old }
    ensures composite { IfOk result (λ t.
        IsReady types.old → IsComposite types.new.types declarations.now t) }
    ensures longer { OnOk result (IsLonger types.old types.new) }
    ensures members { OnOk result (types.new.members ≡ types.old.members) }
    ensures ready { OnOk result (IsReady types.old → IsReady types.new) }
    ensures few { OnOk result (HasFewElements types.new) }
{
    let mut before = None;
    for declaration in declarations {
        before = Some(composite_with(alloc, types, declaration.ty, before)?);
    }
    match before {
        Some(t) => Ok(t),
        None => Err(nowhere()),
    }
}

/// Gives an entity its first use and the composite of the types of its declarations.
fn finish(
    alloc: Global,
    types: &mut TypeTable,
    records: &Records,
    entity: &mut Entity,
) -> Result<(), NoMemory>
    requires few { HasFewElements types.old }
    ensures finished { OnOk result (
        IsReady types.old → IsFinished types.new.types records.now.first_uses entity.old entity.new) }
    ensures longer { OnOk result (IsLonger types.old types.new) }
    ensures members { OnOk result (types.new.members ≡ types.old.members) }
    ensures ready { OnOk result (IsReady types.old → IsReady types.new) }
    ensures few { OnOk result (HasFewElements types.new) }
{
    entity.first_use = first_use(records, entity.declarations.list());
    let ty = composite_of(alloc, types, entity.declarations.list())?;
    entity.ty = ty;
    Ok(())
}

impl Entities {
    /// No entity.
    pub fn new(alloc: Global) -> Entities
        ensures { IsGathered [] result }
    {
        Entities {
            alloc,
            list: Vec::new(alloc),
            last: 0,
            by_ordinal: IndexMap::new(alloc),
            external: IndexMap::new(alloc),
            internal: IndexMap::new(alloc),
        }
    }

    /// The entities, each with its first use and the composite of the types of its declarations.
    pub fn into_list(
        self,
        types: &mut TypeTable,
        records: &Records,
    ) -> Result<Vec<Entity>, NoMemory>
        requires few { HasFewElements types.old }
        ensures finished { IfOk result (λ list. IsReady types.old →
            AreFinished types.new.types records.now.first_uses self.list.items list.items) }
        ensures longer { OnOk result (IsLonger types.old types.new) }
        ensures members { OnOk result (types.new.members ≡ types.old.members) }
        ensures ready { OnOk result (IsReady types.old → IsReady types.new) }
        ensures few { OnOk result (HasFewElements types.new) }
    {
        let Entities { alloc, list, .. } = self;
        let mut list = list;
        for entity in list.iter_mut() {
            finish(alloc, types, records, entity)?;
        }
        Ok(list)
    }

    /// The entity that a node declares. What is named as an expression was declared before.
    pub fn declared_at(&self, ordinal: u32) -> Result<u32, NoMemory>
        ensures { IfOk result (λ entity. entity_at self.now ordinal ≡ Some entity) }
    {
        match self.by_ordinal.get(&ordinal) {
            Some(entity) => Ok(*entity),
            None => Err(nowhere()),
        }
    }

    /// The entity that a name was declared as before (C99 6.2.2, 2).
    fn before(&self, linkage: Linkage, name: &Name) -> Option<u32>
        ensures { result ≡ entity_named self.now linkage name.now }
    {
        match linkage {
            Linkage::External => self.external.get(name).copied(),
            Linkage::Internal => self.internal.get(name).copied(),
            Linkage::None => None,
        }
    }

    /// Keeps the entity of a name with linkage.
    fn keep_name(&mut self, linkage: Linkage, name: &Name, entity: u32) -> Result<(), NoMemory>
        ensures puts { OnOk result (PutsName self.old self.new linkage name.now entity) }
        ensures numbers { OnOk result (self.new.by_ordinal ≡ self.old.by_ordinal) }
        ensures list { OnOk result (self.new.list ≡ self.old.list) }
    {
        match linkage {
            Linkage::External => {
                self.external.insert(name.copy()?, entity)?;
            }
            Linkage::Internal => {
                self.internal.insert(name.copy()?, entity)?;
            }
            Linkage::None => {}
        }
        Ok(())
    }

    /// Begins an entity.
    fn begin(&mut self, named: NamedEntity) -> Result<(), NoMemory>
        ensures keeps { OnOk result (KeepsNumbers self.old.by_ordinal.entries self.new.by_ordinal.entries) }
        ensures number { OnOk result (
            let number = length self.old.list.items in
            PutsNumber self.old.by_ordinal.entries self.new.by_ordinal.entries named.ordinal number) }
        ensures name { OnOk result (
            PutsName self.old self.new named.linkage named.name (length self.old.list.items)) }
        ensures entity { OnOk result (BeginsEntity self.old.list.items self.new.list.items named) }
    {
        let Ok(number) = u32::try_from(self.list.len()) else {
            return Err(NoMemory);
        };
        put_number(&mut self.by_ordinal, named.ordinal, number)?;
        self.keep_name(named.linkage, &named.name, number)?;
        let entity = entity_of(self.alloc, named)?;
        self.list.push(entity)?;
        Ok(())
    }

    /// One more declaration of an entity.
    fn declare_again(&mut self, number: u32, declaration: Declaration) -> Result<(), NoMemory>
        ensures keeps { OnOk result (KeepsNumbers self.old.by_ordinal.entries self.new.by_ordinal.entries) }
        ensures number { OnOk result (
            PutsNumber self.old.by_ordinal.entries self.new.by_ordinal.entries declaration.ordinal number) }
        ensures external { OnOk result (self.new.external ≡ self.old.external) }
        ensures internal { OnOk result (self.new.internal ≡ self.old.internal) }
        ensures entity { OnOk result (
            DeclaresAgain self.old.list.items self.new.list.items number declaration) }
    {
        put_number(&mut self.by_ordinal, declaration.ordinal, number)?;
        match self.list.get_mut(number as usize) {
            Some(entity) => entity.declarations.push(declaration),
            None => Err(nowhere()),
        }
    }

    /// Puts a name among the declarations of the entity that it is.
    fn put(&mut self, named: NamedEntity) -> Result<(), NoMemory>
        ensures keeps { OnOk result (KeepsNumbers self.old.by_ordinal.entries self.new.by_ordinal.entries) }
        ensures gathers { OnOk result (Gathers self.old self.new named) }
    {
        match self.before(named.linkage, &named.name) {
            Some(number) => {
                self.declare_again(number, declaration_of(&named))?;
                Ok(())
            }
            None => {
                self.begin(named)?;
                Ok(())
            }
        }
    }

    /// A name that is declared (`AreEntities`). Names are declared in the order of the text.
    pub fn declare(&mut self, named: NamedEntity) -> Result<(), NoMemory>
        ensures keeps { OnOk result (KeepsNumbers self.old.by_ordinal.entries self.new.by_ordinal.entries) }
        ensures gathers { OnOk result (Gathers self.old self.new named) }
        ensures rises { OnOk result (Rises self.old self.new named) }
    {
        let ordinal = named.ordinal;
        if ordinal <= self.last {
            return Err(nowhere());
        }
        self.put(named)?;
        self.last = ordinal;
        Ok(())
    }
}
