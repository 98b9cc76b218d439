//! Laws of the definitions, as contracts of functions that do nothing.
ghost use Rattle.lk_sources.specs.Laws.{CommandsAreInBounds, HasOneReading, HasOneResult, HasOneResultFor, NeverRefused, NeverRefusedFor, NeverTooLong};

use lk_lex::one_split;
use lk_parse_unit::one_tree;

/// A command names 1 to 64 FILEs, and each name that it has may name a file.
pub fn commands_are_in_bounds()
    ensures { CommandsAreInBounds }
{}

/// The files of a command are read in one way, and then none is too long.
pub fn one_reading()
    ensures reading { HasOneReading }
    ensures never { NeverTooLong }
{}

/// Sources that are accepted are so with one result, and they are not refused too.
pub fn one_result()
    ensures result { HasOneResult }
    ensures never { NeverRefused }
    ensures of_command { HasOneResultFor }
    ensures never_of_command { NeverRefusedFor }
{
    one_split();
    one_tree();
}
