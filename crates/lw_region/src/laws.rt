// Laws of pixel sets and of canonical lists, for the crates above: each function does nothing, and its contract
// is the law.

ghost use Rattle.lw_region.specs.Regions.{SetOfListLaw, BandsLaw, BandedLaw, OneListLaw, EmptyListLaw, DisjointLaw};
ghost use Rattle.lw_region.specs.Regions.{SetOperationsLaw, CombinedListsLaw, MovedListLaw, OneSetLaw, WorkedExample};

/// A pixel is in the set of a list exactly where some rectangle of the list has it.
pub fn set_of_list_law()
    ensures { SetOfListLaw }
{}

/// The bands of a set have its pixels and are canonical, and their set is the set again.
pub fn bands_law()
    ensures { BandsLaw }
{}

/// A list is canonical exactly where it is the rectangles of bands: bands from top to bottom, no two adjacent ones
/// with equal runs, and in each band its runs from left to right, no two of them touching or overlapping.
pub fn banded_law()
    ensures { BandedLaw }
{}

/// One set has one canonical list.
pub fn one_list_law()
    ensures { OneListLaw }
{}

/// A canonical list with no pixel is the empty list, and the empty list has the empty set, whose bands it is.
pub fn empty_list_law()
    ensures { EmptyListLaw }
{}

/// No two rectangles of a canonical list have a pixel in common.
pub fn disjoint_law()
    ensures { DisjointLaw }
{}

/// The operations on sets give sets in reading order, and which pixels these have. The intersection and the
/// difference are in order where the first set is.
pub fn set_operations_law()
    ensures { SetOperationsLaw }
{}

/// What the calls on regions make of two lists has the set that it is the bands of, and pixel by pixel the pixels of both,
/// in the one or in both, and so on. The list of one rectangle has its pixels.
pub fn combined_lists_law()
    ensures { CombinedListsLaw }
{}

/// A pixel is in a moved list exactly where its former place is in the list, and a canonical list stays canonical when it is
/// moved.
pub fn moved_list_law()
    ensures { MovedListLaw }
{}

/// Sets in reading order with the same pixels are one set.
pub fn one_set_law()
    ensures { OneSetLaw }
{}

/// What the definitions give for a small set that was worked out by hand.
pub fn worked_example_law()
    ensures { WorkedExample }
{}
