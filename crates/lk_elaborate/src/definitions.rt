//! Definitions of functions (C99 6.9.1).
ghost use Rattle.std.specs.Prelude.{◌≡◌, IfOk, OnOk};
ghost use Rattle.lk_elaborator.specs.Leading.{GoesOn};
ghost use Rattle.lk_elaborate.specs.Defining.{IsRoundIn, MakesBlock};
ghost use Rattle.lk_elaborate.specs.DefinitionSteps.{IsHead, PutsBodyOf};
ghost use Rattle.lk_elaborate.specs.Outlining.{HasNoLocals, MakesDefinition};
ghost use Rattle.lk_elaborate.specs.Outside.{GoesOutside};
ghost use Rattle.lk_elaborate.specs.PuttingStatements.{PutsBlock};

use crate::declarations::{declared_type, name_in, put_name};
use crate::function_types::result_type;
use crate::parameters::put_parameters;
use crate::statements::{Around, block_items};
use lk_base::{NoMemory, Seq};
use lk_check_decl::Scope;
use lk_elaborator::{Elaborator, Locals};
use lk_labels::{items_of, labels_of};
use lk_tree::Function;
use lk_typed::{Body, Local, TypedStmt, TypedStmtForm};
use lk_types::TypeId;
use std::mem;

/// The head of a definition.
#[derive(Clone, Copy)]
struct Head {
    /// The function's number among the entities.
    entity: u32,
    /// Its type.
    ty: TypeId,
}

/// The head of a definition, whose name is put among the entities.
fn begin_definition(walk: &mut Elaborator, node: &Function) -> Result<Head, NoMemory>
    ensures goes_on { OnOk result (GoesOn walk.old walk.new) }
    ensures head { IfOk result (IsHead walk.old walk.new node.now) }
{
    let named = name_in(&node.declarator)?;
    put_name(walk, Scope::File, &named)?;
    let entity = walk.entities.declared_at(named.at.ordinal)?;
    let ty = declared_type(walk, named.at.ordinal)?;
    Ok(Head { entity, ty })
}

/// What stands round the statements of the body of a function of this type.
fn around_in(walk: &Elaborator, node: &Function, t: TypeId) -> Result<Around, NoMemory>
    ensures { IfOk result (IsRoundIn walk.now node.now t) }
{
    let returned = result_type(walk.types.table(), t)?;
    let labels = labels_of(walk.alloc, &node.body)?;
    Ok(Around { labels, returned })
}

/// The block of the body of a function of this type.
fn body_block(walk: &mut Elaborator, node: &Function, t: TypeId) -> Result<TypedStmt, NoMemory>
    ensures makes { IfOk result (MakesBlock walk.old walk.new node.now t) }
    ensures puts { OnOk result (PutsBlock walk.old walk.new node.now) }
    ensures goes_on { OnOk result (GoesOn walk.old walk.new) }
{
    let around = around_in(walk, node, t)?;
    let items = block_items(walk, items_of(&node.body), &around)?;
    Ok(TypedStmt {
        spot: node.body.spot,
        ordinal: node.body.ordinal,
        form: TypedStmtForm::Block(items),
    })
}

/// Takes the locals of the body that was made.
fn take_locals(walk: &mut Elaborator) -> Vec<Local>
    ensures list { result.items ≡ walk.old.locals.list.items }
    ensures empty { HasNoLocals walk.new }
    ensures same { walk.new ≡ record walk.old { locals = walk.new.locals } }
{
    let none = Locals::new(walk.alloc);
    let locals = mem::replace(&mut walk.locals, none);
    locals.into_list()
}

/// Puts the body of the function with this number among the entities, whose locals
/// begin with so many parameters.
fn put_body(
    walk: &mut Elaborator,
    node: &Function,
    entity: u32,
    parameters: u32,
    block: TypedStmt,
) -> Result<(), NoMemory>
    ensures puts { OnOk result (PutsBodyOf walk.old walk.new node.now entity parameters block) }
    ensures empty { OnOk result (HasNoLocals walk.new) }
{
    let locals = take_locals(walk);
    walk.bodies.push(Body {
        spot: node.spot,
        ordinal: node.ordinal,
        entity,
        parameters,
        locals: Seq::new(locals),
        block,
    })?;
    Ok(())
}

/// A definition of a function (`IsBody`).
pub(crate) fn definition(walk: &mut Elaborator, node: &Function) -> Result<(), NoMemory>
    ensures makes { OnOk result (MakesDefinition walk.old walk.new node.now) }
    ensures goes { OnOk result (GoesOutside walk.old walk.new) }
    ensures empty { OnOk result (HasNoLocals walk.new) }
{
    let head = begin_definition(walk, node)?;
    let parameters = put_parameters(walk, &node.declarator, head.ty)?;
    let block = body_block(walk, node, head.ty)?;
    put_body(walk, node, head.entity, parameters, block)?;
    Ok(())
}
