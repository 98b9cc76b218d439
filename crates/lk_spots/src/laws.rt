//! Laws of the places of nodes and faults.
ghost use Rattle.lk_spots.specs.Laws.{FaultsStandAtTokens, FaultsStandInFiles, NodesHoldPlacesOfTokens, NodesStandAtTokens, NodesStandInFiles, TreesStandAtTokens, TypedTreesStandAtTokens, TypedTreesStandInFiles};

/// Each place in the tree that tokens have is that of one of them.
pub fn trees_stand_at_tokens()
    ensures { TreesStandAtTokens }
{}

/// Each place in a node of a source is that of one of its tokens.
pub fn nodes_hold_places_of_tokens()
    ensures { NodesHoldPlacesOfTokens }
{}

/// A node of a source stands at one of its tokens.
pub fn nodes_stand_at_tokens()
    ensures { NodesStandAtTokens }
{}

/// A fault of a source stands at one of its tokens.
pub fn faults_stand_at_tokens()
    ensures { FaultsStandAtTokens }
{}

/// Where each token stands in one of the first files, so does each node.
pub fn nodes_stand_in_files()
    ensures { NodesStandInFiles }
{}

/// Where each token stands in one of the first files, so does each fault.
pub fn faults_stand_in_files()
    ensures { FaultsStandInFiles }
{}

/// Each place in the typed tree of a source is that of one of its tokens.
pub fn typed_trees_stand_at_tokens()
    ensures { TypedTreesStandAtTokens }
{}

/// Where each token stands in one of the first files, so does each place in the typed tree.
pub fn typed_trees_stand_in_files()
    ensures { TypedTreesStandInFiles }
{}
