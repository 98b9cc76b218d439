//! Statements that are an expression, and `return` (C99 6.8.3, 6.8.6.4).
ghost use Rattle.lk_lower_expr.specs.Reads.{names_by};
ghost use Rattle.lk_lower_stmt.specs.Lays.{Adds};
ghost use Rattle.lk_lower_expr.specs.Statements as rules;

use crate::make::step;
use lk_base::NoMemory;
use lk_facts::Action;
use lk_lower_expr::{Goals, Lowering, NamedStep, lay};
use lk_typed::{TypedExpr, TypedStmt};

/// Adds the steps of `expression;`, perhaps without the expression.
pub(crate) fn push_expression(
    source: &Lowering<'_>,
    e: &Option<TypedExpr>,
    go: Goals,
    steps: &mut Vec<NamedStep>,
) -> Result<u32, NoMemory>
    ensures { Adds (rules.expression_flow (names_by source.now) e.now) go steps.old.items steps.new.items
        result }
{
    match e {
        None => Ok(go.next),
        Some(e) => {
            source.push_steps(e, go.next, steps)?;
            source.first_of(e)
        }
    }
}

/// Adds the steps of `return`, which leads to the exit of the function.
pub(crate) fn push_return(
    source: &Lowering<'_>,
    s: &TypedStmt,
    e: &Option<TypedExpr>,
    go: Goals,
    steps: &mut Vec<NamedStep>,
) -> Result<u32, NoMemory>
    ensures { Adds (rules.return_flow (names_by source.now) s.now.ordinal s.now.spot
        (rules.part_of (names_by source.now) e.now)) go steps.old.items steps.new.items result }
{
    let own = source.names.at(s.ordinal, 0);
    match e {
        None => {
            let is = step(source.alloc, Action::Return(None), s.spot, go.exit)?;
            lay(s.ordinal, vec![in source.alloc; is]?, steps)?;
            Ok(own)
        }
        Some(e) => {
            source.push_steps(e, own, steps)?;
            let value = source.value_of(e)?;
            let is = step(source.alloc, Action::Return(Some(value)), s.spot, go.exit)?;
            lay(s.ordinal, vec![in source.alloc; is]?, steps)?;
            source.first_of(e)
        }
    }
}
