//! Several values at once in boxes: where there is no memory for one of them, all are let go here.
//!
//! What reads or makes a tree puts its parts into boxes together, so that how they are let go is proved
//! once, for values of any types.
#![tactic(auto)]

ghost use Rattle.std.specs.Prelude.{◌≡◌, IfOk};

use lk_base::{Boxed, NoMemory};
use std::alloc::Global;

/// A value in a box, with one beside it.
pub fn boxed_beside<A: Drop, B: Drop>(
    alloc: Global,
    value: A,
    beside: B,
) -> Result<(Boxed<A>, B), NoMemory>
    ensures { IfOk result (λ both. both ≡ (value, beside)) }
{
    let value = Boxed::new(alloc, value)?;
    Ok((value, beside))
}

/// A value in a box, where there is one, with one beside it.
pub fn boxed_if_any<A: Drop, B: Drop>(
    alloc: Global,
    value: Option<A>,
    beside: B,
) -> Result<(Option<Boxed<A>>, B), NoMemory>
    ensures { IfOk result (λ both. both ≡ (value, beside)) }
{
    match value {
        Some(value) => {
            let (value, beside) = boxed_beside(alloc, value, beside)?;
            Ok((Some(value), beside))
        }
        None => Ok((None, beside)),
    }
}

/// Two values in boxes.
pub fn boxed_two<A: Drop, B: Drop>(
    alloc: Global,
    first: A,
    second: B,
) -> Result<(Boxed<A>, Boxed<B>), NoMemory>
    ensures { IfOk result (λ both. both ≡ (first, second)) }
{
    let first = Boxed::new(alloc, first)?;
    let second = Boxed::new(alloc, second)?;
    Ok((first, second))
}

/// Two values in boxes, with one beside them.
pub fn boxed_two_beside<A: Drop, B: Drop, C: Drop>(
    alloc: Global,
    first: A,
    second: B,
    beside: C,
) -> Result<(Boxed<A>, Boxed<B>, C), NoMemory>
    ensures { IfOk result (λ all. all ≡ (first, second, beside)) }
{
    let first = Boxed::new(alloc, first)?;
    let (second, beside) = boxed_beside(alloc, second, beside)?;
    Ok((first, second, beside))
}

/// Three values in boxes.
pub fn boxed_three<A: Drop, B: Drop, C: Drop>(
    alloc: Global,
    first: A,
    second: B,
    third: C,
) -> Result<(Boxed<A>, Boxed<B>, Boxed<C>), NoMemory>
    ensures { IfOk result (λ all. all ≡ (first, second, third)) }
{
    let first = Boxed::new(alloc, first)?;
    let (second, third) = boxed_two(alloc, second, third)?;
    Ok((first, second, third))
}
