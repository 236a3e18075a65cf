//! Laws: functions that do nothing when they run. What is promised is their contracts, which pages cite.

ghost use Rattle.office.specs.changes.Laws.{ChangesAllowed, ChangesFew, ImportAllowed, ImportFew, RowsApart, RowsGiveOffice};
ghost use Rattle.office.specs.closing.Laws.{ClosingAllowed, ClosingFew, ClosingKeepsFit, ClosingTransforms, KeptIsCounted, PlacesAreTaken, PlacesAreInLists, PlacedIsKept, PlacesClose};

/// The rows of a fit office have different keys, and determine it.
pub fn rows_law()
    ensures apart { RowsApart }
    ensures one { RowsGiveOffice }
{}

/// The changes of a request that is not refused are allowed over the rows of a fit office, and they are few.
pub fn allowed_law()
    ensures plain { ChangesAllowed }
    ensures few { ChangesFew }
    ensures imports { ImportAllowed }
    ensures few_of_import { ImportFew }
{}

/// An office whose open round closes with a matching stays fit, the changes of closing transform its rows, are allowed over them and
/// few, and its placements are counted in the matching.
pub fn closing_law()
    ensures fit { ClosingKeepsFit }
    ensures turned { ClosingTransforms }
    ensures allowed { ClosingAllowed }
    ensures few { ClosingFew }
    ensures counted { KeptIsCounted }
{}

/// Places of a matching of the open round's instance stand for a matching by codes and for the placements that keep it, and
/// what is made of these is what closing makes.
pub fn places_law()
    ensures taken { PlacesAreTaken }
    ensures within { PlacesAreInLists }
    ensures kept { PlacedIsKept }
    ensures close { PlacesClose }
{}
