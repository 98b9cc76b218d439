//! Laws of the trees that the numbers of a table stand for.
ghost use Rattle.lk_typed.specs.Laws.{NumbersMeanOneTree, TreesDiffer, MeaningsStay};

/// A number of a table means one tree.
pub fn numbers_mean_one_tree()
    ensures { NumbersMeanOneTree }
{}

/// Two numbers of a table mean different trees.
pub fn trees_differ()
    ensures { TreesDiffer }
{}

/// What a number means stays as it is while the table grows.
pub fn meanings_stay()
    ensures { MeaningsStay }
{}
