//! What the declaration of a local gives it (C99 6.7.8).
ghost use Rattle.std.specs.Prelude.{IfOk, OnOk, []};
ghost use Rattle.lk_elaborator.specs.Leading.{Grows};
ghost use Rattle.lk_elab_init.specs.Cells.{cells_given};
ghost use Rattle.lk_elab_init.specs.Giving.{GivesTo};
ghost use Rattle.lk_elab_init.specs.Places.{ArePut};
ghost use Rattle.lk_elab_init.specs.Settled.{fields_listed};
ghost use Rattle.lk_typed.specs.Meaning.{meaning};
ghost use Rattle.lk_elaborate.specs.LocalParts.{GivesLocalInit};
ghost use Rattle.lk_elaborate.specs.LocalParts.{BeginsLocal, GivesLocalPart, GivesLocalParts, GivesLocalValue};

use lk_base::{NoMemory, Seq};
use lk_elab_expr::given_value;
use lk_elab_init::{Beginning, PartGiven, absent_cells, path_of, put_given};
use lk_elaborator::Elaborator;
use lk_tree::{Expr, Init};
use lk_typed::{AbsentCells, ExprType, LocalInit, LocalPart, LocalValue};
use lk_types::TypeId;

/// The value of an expression, converted to the type of a part.
fn value_for(walk: &mut Elaborator, ty: TypeId, e: &Expr) -> Result<LocalValue, NoMemory>
    ensures value { IfOk result (GivesLocalValue walk.old walk.new ty e.now) }
    ensures grows { OnOk result (Grows walk.old walk.new) }
{
    let value = given_value(walk, e, &ExprType::Listed(ty), false)?;
    Ok(LocalValue::Expr(value))
}

/// What a part of a local begins with (`IsLocalValue`).
fn local_value(walk: &mut Elaborator, given: &PartGiven<'_>) -> Result<LocalValue, NoMemory>
    ensures value { IfOk result (BeginsLocal walk.old walk.new given.now) }
    ensures grows { OnOk result (Grows walk.old walk.new) }
{
    match &given.begins {
        Beginning::Value(e) => value_for(walk, given.ty, e),
        Beginning::Bytes(spot, ordinal, bytes) => {
            let bytes = Vec::from_slice(walk.alloc, bytes.list())?;
            Ok(LocalValue::Text(*spot, *ordinal, Seq::new(bytes)))
        }
        Beginning::Word => Ok(LocalValue::Ready),
    }
}

/// A part of a local (`IsLocalPart`).
fn local_part(walk: &mut Elaborator, given: &PartGiven<'_>) -> Result<LocalPart, NoMemory>
    ensures part { IfOk result (GivesLocalPart walk.old walk.new given.now) }
    ensures grows { OnOk result (Grows walk.old walk.new) }
{
    let path = path_of(walk.alloc, given.path.list())?;
    let value = local_value(walk, given)?;
    Ok(LocalPart {
        path,
        ty: given.ty,
        value,
    })
}

/// The parts of a local (`AreLocalParts`).
fn local_parts(walk: &mut Elaborator, givens: &[PartGiven<'_>]) -> Result<Vec<LocalPart>, NoMemory>
    ensures parts { IfOk result (λ parts. GivesLocalParts walk.old walk.new givens.now parts.items) }
    ensures grows { OnOk result (Grows walk.old walk.new) }
{
    let mut parts = Vec::new(walk.alloc);
    for given in givens {
        let part = local_part(walk, given)?;
        parts.push(part)?;
    }
    Ok(parts)
}

/// The parts that an initialiser of an object of this type names.
fn parts_given<'a>(
    walk: &Elaborator,
    ty: TypeId,
    init: &'a Init,
) -> Result<Vec<PartGiven<'a>>, NoMemory>
    ensures { IfOk result (λ givens. GivesTo walk.now ty [] init.now givens.items) }
{
    let mut givens = Vec::new(walk.alloc);
    put_given(walk, ty, init, &mut givens)?;
    Ok(givens)
}

/// The cells of a local of this type that these parts don't name.
fn absent_from(
    walk: &Elaborator,
    ty: TypeId,
    givens: &[PartGiven<'_>],
) -> Result<Vec<AbsentCells>, NoMemory>
    ensures { IfOk result (λ absent.
        ArePut (fields_listed walk.now.types) (cells_given givens.now) [] (meaning walk.now.types ty)
        absent.items) }
{
    absent_cells(walk.alloc, walk.types.table(), ty, givens)
}

/// The initialiser of the local that a node declares, an object of this type (`IsLocalInit`).
pub(crate) fn local_init(
    walk: &mut Elaborator,
    ordinal: u32,
    ty: TypeId,
    init: &Init,
) -> Result<LocalInit, NoMemory>
    ensures init { IfOk result (GivesLocalInit walk.old walk.new ordinal ty init.now) }
    ensures grows { OnOk result (Grows walk.old walk.new) }
{
    let local = walk.locals.number_of(ordinal)?;
    let givens = parts_given(walk, ty, init)?;
    let absent = absent_from(walk, ty, givens.as_slice())?;
    let named = local_parts(walk, givens.as_slice())?;
    Ok(LocalInit {
        local,
        named: Seq::new(named),
        absent: Seq::new(absent),
    })
}
