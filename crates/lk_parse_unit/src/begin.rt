//! Where the reading of a source begins.
ghost use Rattle.std.specs.Prelude.{◌≡◌, IfOk, OnOk, true};
ghost use Rattle.lk_parse_expr.specs.Input as input;
ghost use Rattle.lk_parse_expr.specs.Input.{AreInside};
ghost use Rattle.lk_parse_unit.specs.Tree.{start};

use lk_base::{Name, NoMemory};
use lk_lex::Token;
use lk_parse_expr::Cursor;
use std::alloc::Global;

/// Declares a type of this name.
fn declare_type(alloc: Global, cursor: &mut Cursor<'_>, name: &[u8]) -> Result<(), NoMemory>
    ensures { OnOk result (cursor.new ≡ input.declare name.now true cursor.old) }
{
    match Name::from_bytes(alloc, name) {
        Ok(name) => cursor.declare(name, true),
        Err(_) => Err(NoMemory),
    }
}

/// A cursor at the first of the tokens of a source, with the predeclared types in scope.
#[tactic(auto, unfolding(lk_parse_expr::specs::Input::declare))]
pub fn begin<'t>(
    alloc: Global,
    source: &'t [u8],
    tokens: &'t [Token],
) -> Result<Cursor<'t>, NoMemory>
    requires { AreInside source.now tokens.now }
    ensures { IfOk result (λ cursor. cursor ≡ start source.now tokens.now) }
{
    let mut cursor = Cursor::new(alloc, source, tokens);
    declare_type(alloc, &mut cursor, b"pthread_t")?;
    declare_type(alloc, &mut cursor, b"pthread_mutex_t")?;
    declare_type(alloc, &mut cursor, b"pthread_cond_t")?;
    declare_type(alloc, &mut cursor, b"size_t")?;
    declare_type(alloc, &mut cursor, b"pthread_attr_t")?;
    declare_type(alloc, &mut cursor, b"pthread_mutexattr_t")?;
    declare_type(alloc, &mut cursor, b"pthread_condattr_t")?;
    Ok(cursor)
}
