//! What speaks against a program of several sources, and which of it is told.
ghost use Rattle.std.specs.Prelude.{◌≡◌, ◌↔◌, [], IsTrue, IfOk, MatchOption};
ghost use Rattle.lk_link.specs.Clashes.{IsToldBefore, IsFirstOf};

use lk_base::{Code, Name, NoMemory, Spot};

/// Why sources make no program together: `Code::DefinedTwice`, `Code::TypesDiffer` or `Code::NotDefined`.
#[derive(Drop)]
pub struct Clash {
    /// The source in which it stands, in the order of the command from 0 on.
    pub source: u32,
    /// The number of the node at which it stands.
    pub ordinal: u32,
    /// The place of that node.
    pub spot: Spot,
    pub code: Code,
    /// The name that it is about.
    pub name: Name,
}

impl Clash {
    /// A copy of it.
    pub(crate) fn copy(&self) -> Result<Clash, NoMemory>
        ensures { IfOk result (λ copy. copy ≡ self.now) }
    {
        let name = self.name.copy()?;
        Ok(Clash {
            source: self.source,
            ordinal: self.ordinal,
            spot: self.spot,
            code: self.code,
            name,
        })
    }
}

/// Whether one clash is told before another: by the place of the source, then the number of the
/// node, then that of the code.
fn is_told_before(a: &Clash, b: &Clash) -> bool
    ensures { IsTrue result ↔ IsToldBefore a.now b.now }
{
    if a.source != b.source {
        return a.source < b.source;
    }
    if a.ordinal != b.ordinal {
        return a.ordinal < b.ordinal;
    }
    a.code.number() < b.code.number()
}

/// The clash that is told: none of the others comes before it. Nothing where there is none.
pub fn first_told(clashes: &[Clash]) -> Option<&Clash>
    ensures { MatchOption result (clashes.now ≡ []) (λ first. IsFirstOf clashes.now first.now) }
{
    if clashes.is_empty() {
        return None;
    }
    let mut best = 0;
    for place in 1..clashes.len() {
        if is_told_before(&clashes[place], &clashes[best]) {
            best = place;
        }
    }
    Some(&clashes[best])
}
