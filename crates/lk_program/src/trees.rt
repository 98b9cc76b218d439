//! The typed trees of accepted sources.
ghost use Rattle.std.specs.List.{AllZip};
ghost use Rattle.std.specs.Prelude.{All, IfOk};
ghost use Rattle.lk_program.specs.Trees.{HasReadyTypes, TypesSource};

use lk_base::NoMemory;
use lk_elaborate::elaborate;
use lk_sources::AcceptedSource;
use lk_typed::TypedUnit;
use std::alloc::Global;

/// The typed tree of a source.
fn typed_unit(alloc: Global, source: AcceptedSource) -> Result<TypedUnit, NoMemory>
    requires { HasReadyTypes source }
    ensures { IfOk result (TypesSource source) }
{
    let AcceptedSource { parsed, checked } = source;
    let unit = elaborate(alloc, &parsed.unit, checked)?;
    Ok(unit)
}

/// The typed tree of each source, in their order.
pub(crate) fn typed_units(
    alloc: Global,
    sources: Vec<AcceptedSource>,
) -> Result<Vec<TypedUnit>, NoMemory>
    requires { All HasReadyTypes sources.items }
    ensures { IfOk result (λ units. AllZip TypesSource sources.items units.items) }
{
    let mut units = Vec::new(alloc);
    for source in sources {
        let unit = typed_unit(alloc, source)?;
        units.push(unit)?;
    }
    Ok(units)
}
