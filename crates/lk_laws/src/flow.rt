//! What edges join. Each function is a law, which its contract states.
ghost use Rattle.lk_laws.specs.RowLaws.{RowsGiveEdges};
ghost use Rattle.lk_laws.specs.CodeLaws.{WalksGoInside, FunctionsHaveOneCode};
ghost use Rattle.lk_laws.specs.FlowLaws.{EdgesJoinLabels, EdgesJoinAlike, NoEdgeEndsAtAnOrigin, FunctionsHaveSites, Contents};

/// An edge joins two labels of the program.
pub fn edges_join_labels()
    ensures { EdgesJoinLabels }
{}

/// An edge joins two labels whose types are equal but for the sizes of arrays, where the points are typed.
pub fn edges_join_alike()
    ensures { EdgesJoinAlike }
{}

/// Each row of the edges gives its edges: what it joins is there. Nothing is joined only
/// where neither side is a pointer.
pub fn rows_give_edges()
    ensures { RowsGiveEdges }
{}

/// No edge ends at an origin.
pub fn no_edge_ends_at_an_origin()
    ensures { NoEdgeEndsAtAnOrigin }
{}

/// A function that flows to a label other than its own is used as a value, and has a site of its own.
pub fn functions_have_sites()
    ensures { FunctionsHaveSites }
{}

/// Contents: where a walk leads from one label to another, and one path of fields and elements leads from
/// both to pointers, walks lead both ways between what these point to, each in its context. The same holds of
/// each Part of what `void *` points to.
pub fn contents()
    ensures { Contents }
{}

/// Where a walk leads from one label to another, one leads from a field or element of
/// the one to that of the other.
pub fn walks_go_inside()
    ensures { WalksGoInside }
{}

/// Where a walk leads from one function to another, what flows through their results goes with it, and what
/// flows through their parameters against it.
pub fn functions_have_one_code()
    ensures { FunctionsHaveOneCode }
{}
