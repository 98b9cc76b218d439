//! Laws of the places of points and roots.
ghost use Rattle.lk_point_spots.specs.Laws.{PointsStandInFiles};

/// Where each place in the typed trees of a program's sources is in one of the first files, so is each point
/// and each root of a program that is made of them.
pub fn points_stand_in_files()
    ensures { PointsStandInFiles }
{}
