//! The tree of a source.
ghost use Rattle.std.specs.Prelude.{IfOk, IfErr, length};
ghost use Rattle.lk_parse_expr.specs.Input.{AreInside};
ghost use Rattle.lk_parse_unit.specs.Parsing.{IsRefused, HasFewOrdinals};
ghost use Rattle.lk_parse_unit.specs.Tree.{IsTree};

use crate::begin::begin;
use crate::unit::read_unit;
use lk_base::{Fault, MOST_DEPTH};
use lk_lex::Token;
use lk_ordinals::number_unit;
use lk_tree::Unit;
use std::alloc::Global;

/// A source that was read. It is let go here, so that a crate which holds one need not
/// know what trees are made of.
pub struct Parsed {
    /// The tree of the source.
    pub unit: Unit,
}

impl Drop for Parsed {
    fn drop(self) {
        let Parsed { unit: _unit } = self;
    }
}

/// The tree of a source with these tokens, as the grammar gives it (C99 6.5 to 6.9), of depth 200 at most.
/// Its nodes are numbered in a walk, parents first, from 0 on, and there are at most as many as tokens.
///
/// A refusal has the code `Syntax` only where there is no tree of any depth, and the code
/// `TooDeep` only where there is none of depth 200 at most. By the law `one_tree` there is one
/// tree at most; so the tree comes, but for want of memory, exactly where there is one that is not
/// too deep. A refusal has an empty name.
#[tactic(auto, using(crate::proofs::Exact::read_tree, crate::proofs::Exact::refused))]
pub fn parse_unit(alloc: Global, source: &[u8], tokens: &[Token]) -> Result<Parsed, Fault>
    requires { AreInside source.now tokens.now }
    ensures tree { IfOk result (λ parsed. IsTree 200 source.now tokens.now parsed.unit) }
    ensures few { IfOk result (λ parsed. HasFewOrdinals (length tokens.now) parsed.unit) }
    ensures err { IfErr result (IsRefused 200 source.now tokens.now) }
{
    let mut cursor = begin(alloc, source, tokens)?;
    let found = read_unit(alloc, &mut cursor, MOST_DEPTH as usize)?;
    let mut unit = Unit {
        externals: found.tree,
    };
    number_unit(&mut unit)?;
    Ok(Parsed { unit })
}
