//! The trees of several sources.
ghost use Rattle.std.specs.Prelude.{length, map, All, IfOk, IfErr};
ghost use Rattle.lk_lex.specs.TokenList.{IsInside};
ghost use Rattle.lk_parse_unit.specs.Parsing.{IsRefused};
ghost use Rattle.lk_parse_unit.specs.Tree.{IsTree};
ghost use Rattle.lk_sources.specs.Calls.{AreAllInside};
ghost use Rattle.lk_sources.specs.Judging.{IsTreeFault};
ghost use Rattle.lk_sources.specs.Trees.{AreTrees};

use crate::reading::Source;
use lk_base::{Fault, Seq};
use lk_lex::Token;
use lk_parse_unit::{Parsed, parse_unit};
use std::alloc::Global;

/// The tree of a source, which has these tokens.
fn tree_of(alloc: Global, source: &Source, list: &Seq<Token>) -> Result<Parsed, Fault>
    requires { All (IsInside (length source.now.bytes)) list.now }
    ensures ok { IfOk result (λ parsed. IsTree 200 source.now.bytes list.now parsed.unit) }
    ensures err { IfErr result (IsRefused 200 source.now.bytes list.now) }
{
    let parsed = parse_unit(alloc, source.bytes.list(), list.list())?;
    Ok(parsed)
}

/// The tree of each source, which has these tokens.
///
/// A refusal is for the first source without one.
pub(crate) fn trees(
    alloc: Global,
    sources: &[Source],
    lists: &[Seq<Token>],
) -> Result<Vec<Parsed>, Fault>
    requires { AreAllInside sources.now lists.now }
    ensures ok { IfOk result (λ trees.
        AreTrees sources.now lists.now (map (λ parsed. parsed.unit) trees.items)) }
    ensures err { IfErr result (IsTreeFault sources.now lists.now) }
{
    let mut trees = Vec::new(alloc);
    for index in 0..sources.len() {
        let parsed = tree_of(alloc, &sources[index], &lists[index])?;
        trees.push(parsed)?;
    }
    Ok(trees)
}
