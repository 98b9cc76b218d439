//! Laws of tables, walks and nodes.
ghost use Rattle.lk_types.specs.Laws.{NoPathStandsTwice, EqualNodesHaveEqualIds, WalksAreOfParts, SizesAreOfParts, PointersHaveRoom, PointersToPointersHaveRoom, OlderWalksStay, PredeclaredStay, LongerIsTransitive};

/// No path stands twice in a walk.
pub fn no_path_stands_twice()
    ensures { NoPathStandsTwice }
{}

/// Equal nodes have equal ids.
pub fn equal_nodes_have_equal_ids()
    ensures { EqualNodesHaveEqualIds }
{}

/// A walk is its Start and then the walks of its parts, so no part is cut off.
pub fn walks_are_of_parts()
    ensures { WalksAreOfParts }
{}

/// A size is one for the Start together with the sizes of the parts.
pub fn sizes_are_of_parts()
    ensures { SizesAreOfParts }
{}

/// A table has room for the pointer to each type that isn't over the bounds of the language.
pub fn pointers_have_room()
    ensures { PointersHaveRoom }
{}

/// A table has room for the pointer to the pointer to such a type, too.
pub fn pointers_to_pointers_have_room()
    ensures { PointersToPointersHaveRoom }
{}

/// The walk of a type that isn't an incomplete struct stays as it is while the table grows.
pub fn older_walks_stay()
    ensures { OlderWalksStay }
{}

/// The predeclared types stay while the table grows.
pub fn predeclared_types_stay()
    ensures { PredeclaredStay }
{}

/// Of three tables that grew one from another the last grew from the first.
pub fn longer_is_transitive()
    ensures { LongerIsTransitive }
{}
