//! The cohomology sequence of a pair, and operations on relative classes: definitions and laws.
#![tactic(auto)]

ghost use Rattle.pair_law.specs.Certificates.{CertificateLaw};
ghost use Rattle.pair_law.specs.Laws.{CommutingOperations, ExactCocycles, ExactMatrices, InclusionLaw, OfEachPair, PairMaps, PairMatrices, RelativeOperations, RelativeSteenrodLaw};

/// The maps of the sequence take cocycles to cocycles and coboundaries to coboundaries.
pub fn pair_map_law()
    ensures { OfEachPair PairMaps }
{}

/// The cohomology sequence of a pair is exact, on cocycles.
pub fn exact_sequence_law()
    ensures { OfEachPair ExactCocycles }
{}

/// The matrices of the maps carry the coordinates of every cocycle.
pub fn pair_matrix_law()
    ensures { OfEachPair PairMatrices }
{}

/// The sequence of the matrices is exact, for any bases.
pub fn exact_matrix_law()
    ensures { OfEachPair ExactMatrices }
{}

/// Restriction is the pull-back along the inclusion.
pub fn inclusion_law()
    ensures { InclusionLaw }
{}

/// Operations on relative classes are linear, and their matrices carry the coordinates of every relative cocycle.
pub fn relative_operation_law()
    ensures { OfEachPair RelativeOperations }
{}

/// Operations commute with the maps into the complex and on to the subcomplex.
pub fn commuting_law()
    ensures { OfEachPair CommutingOperations }
{}

/// The matrices of squares, powers and Bockstein powers carry the coordinates of every relative cocycle.
pub fn relative_steenrod_law()
    ensures { RelativeSteenrodLaw }
{}

/// A kernel list and preimages of its vectors show that a sequence of matrices is exact.
pub fn certificate_law()
    ensures { CertificateLaw }
{}
