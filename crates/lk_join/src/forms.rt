//! The forms of types of a source, made of the program's types.
ghost use Rattle.std.specs.Prelude.{◌≡◌, ◌<◌, ◌^◌, All, IfOk, length};
ghost use Rattle.std.specs.List.{AllZip};
ghost use Rattle.lk_link.specs.Sources.{HasKnownMembers};
ghost use Rattle.lk_types.specs.Building.{IsMadeOf};
ghost use Rattle.lk_types.specs.Table.{members_of};
ghost use Rattle.lk_join.specs.Forms.{HasForm, IsHere, IsMember};
ghost use Rattle.lk_join.specs.Large.{AreAsLarge};

use lk_base::{NoMemory, Seq};
use lk_types::{CType, StructMember, TypeId, TypeIds, TypeTable};
use std::alloc::Global;

/// A source whose types are put to the program's.
#[derive(Drop)]
pub(crate) struct Source<'a> {
    pub(crate) alloc: Global,
    pub(crate) types: &'a TypeTable,
    /// Of each of its structs the number in the program.
    pub(crate) structs: &'a [usize],
    ghost all_structs: { length structs.now ≡ length types.now.members },
    ghost few_structs: { All (λ number. number < 2 ^ 32) structs.now },
    ghost all_members: { HasKnownMembers types.now },
    ghost as_large: { AreAsLarge types.now structs.now types.now structs.now },
}

/// The program's number of a type of a source: one of the first, which have one.
pub(crate) fn here(row: &[TypeId], t: TypeId) -> TypeId
    requires { t < length row.now }
    ensures { IsHere row.now t result }
{
    row[t.index()]
}

/// The program's numbers of these types.
fn all_here(alloc: Global, row: &[TypeId], types: &[TypeId]) -> Result<TypeIds, NoMemory>
    requires { All (λ t. t < length row.now) types.now }
    ensures { IfOk result (AllZip (IsHere row.now) types.now) }
{
    let mut list = Vec::new(alloc);
    for t in types {
        list.push(here(row, *t))?;
    }
    Ok(TypeIds::new(list))
}

/// A member with the program's type.
fn member_here(row: &[TypeId], member: &StructMember) -> Result<StructMember, NoMemory>
    requires { member.now.ty < length row.now }
    ensures { IfOk result (IsMember row.now member.now) }
{
    let ty = here(row, member.ty);
    let name = member.name.copy()?;
    Ok(StructMember { name, ty })
}

impl Source<'_> {
    /// The program's number of a struct of the source.
    pub(crate) fn struct_here(&self, s: u32) -> u32
        requires { s < length self.now.types.now.members }
        ensures { IsHere self.now.structs.now s result }
    {
        self.structs[s as usize] as u32
    }

    /// A form of the source, made of the program's types: those that it is made of there are among the
    /// first, which have their numbers.
    pub(crate) fn form_here(&self, row: &[TypeId], form: &CType) -> Result<CType, NoMemory>
        requires { IsMadeOf self.now.types.now (length row.now) form.now }
        ensures { IfOk result (HasForm row.now self.now.structs.now form.now) }
    {
        match form {
            CType::Pointer(t) => Ok(CType::Pointer(here(row, *t))),
            CType::Array(t, size) => Ok(CType::Array(here(row, *t), *size)),
            CType::Struct(s) => Ok(CType::Struct(self.struct_here(*s))),
            CType::Function {
                result,
                params,
                dots,
            } => {
                Ok(CType::Function {
                    result: here(row, *result),
                    params: all_here(self.alloc, row, params.list())?,
                    dots: *dots,
                })
            }
            CType::Void => Ok(CType::Void),
            CType::Int(kind) => Ok(CType::Int(*kind)),
            CType::ThreadId => Ok(CType::ThreadId),
            CType::Mutex => Ok(CType::Mutex),
            CType::Cond => Ok(CType::Cond),
            CType::Opaque(number) => Ok(CType::Opaque(*number)),
        }
    }

    /// The members of a struct of the source, with the program's types, where these have their numbers.
    pub(crate) fn members_here(&self, row: &[TypeId], s: u32) -> Result<Seq<StructMember>, NoMemory>
        requires known { s < length self.now.types.now.members }
        requires types { All (λ member. member.ty < length row.now) (members_of self.now.types.now s) }
        ensures { IfOk result (AllZip (IsMember row.now) (members_of self.now.types.now s)) }
    {
        let mut members = Vec::new(self.alloc);
        for member in self.types.members(s) {
            let here = member_here(row, member)?;
            members.push(here)?;
        }
        Ok(Seq::new(members))
    }
}
