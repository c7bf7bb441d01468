//! Laws of planted trees. Each function's contract is one law.
ghost use Rattle.html_round_trip.specs.Planting.Laws.{ArePlainDocumentsPlanted, ArePlainTreesPlantable, ArePlantedAlone};
ghost use Rattle.html_round_trip.specs.Planting.Laws.{AreShownTreesWalked, IsPlantingLawful};

/// Trees that are planted in a node come last in it, and nothing else changes.
pub fn planted_trees_are_added()
    ensures { ArePlantedAlone }
{}

/// Planting leaves a tree, whatever was told of errors.
pub fn planting_leaves_a_tree()
    ensures { IsPlantingLawful }
{}

/// The trees that nodes show are those that are walked.
pub fn shown_trees_are_walked()
    ensures { AreShownTreesWalked }
{}

/// Plain trees can be planted.
pub fn plain_trees_can_be_planted()
    ensures { ArePlainTreesPlantable }
{}

/// A plain document that is planted in a new forest is what is walked, written and judged of it.
pub fn plain_documents_are_shown()
    ensures { ArePlainDocumentsPlanted }
{}
