//! The Steenrod operations on cochains and on classes: definitions and laws.
#![tactic(auto)]

ghost use Rattle.steenrod_law.specs.Names.{AdditivityLaw, ClosedLaw, CocycleValueLaw, DegreeLaw, InducedMapLaw, InducedMatrixLaw, LinearityLaw, OperationMatrixLaw, OrbitWordsLaw, ProductLaw, PullBackLaw, RepresentativeLaw, ScalingLaw, StaircaseLaw, SteenrodMatrixLaw, SubcomplexLaw, TargetLaw, TurnedValueLaw, WordLaws};

/// Words are a cyclic model.
#[tactic(auto, using(crate::proofs::WordLemmas::word_laws))]
pub fn word_laws()
    ensures { WordLaws }
{}

/// The boundaries of the sums of the staircase.
pub fn staircase_law()
    ensures { StaircaseLaw }
{}

/// The words of the listed orbit masks, one for each orbit.
#[tactic(auto, using(crate::proofs::OrbitTables::orbit_words_law))]
pub fn orbit_words_law()
    ensures { OrbitWordsLaw }
{}

/// The coboundary of the value of a surjection on cocycles.
#[tactic(auto, using(crate::proofs::SurjectionValues::cocycle_value_law))]
pub fn cocycle_value_law()
    ensures { CocycleValueLaw }
{}

/// The value of a turned surjection.
#[tactic(auto, using(crate::proofs::SurjectionValues::turned_value_law))]
pub fn turned_value_law()
    ensures { TurnedValueLaw }
{}

/// A May operation takes cocycles to cocycles.
pub fn closed_law()
    ensures { ClosedLaw }
{}

/// The operation of degree d of a multiple is the multiple.
pub fn scaling_law()
    ensures { ScalingLaw }
{}

/// The degrees of the operations and of the primitives.
#[tactic(auto, using(crate::proofs::LawProofs::degree_law))]
pub fn degree_law()
    ensures { DegreeLaw }
{}

/// The operation of a coboundary is a coboundary.
pub fn representative_law()
    ensures { RepresentativeLaw }
{}

/// The operation of a sum of cocycles is the sum of the operations, up to a coboundary.
#[tactic(auto, using(crate::proofs::LawProofs::additivity_law))]
pub fn additivity_law()
    ensures { AdditivityLaw }
{}

/// The primitives are 0 where the cochains are 0.
#[tactic(auto, using(crate::proofs::LawProofs::subcomplex_law))]
pub fn subcomplex_law()
    ensures { SubcomplexLaw }
{}

/// On classes the operations are linear maps.
#[tactic(auto, using(crate::proofs::LawProofs::linearity_law))]
pub fn linearity_law()
    ensures { LinearityLaw }
{}

/// The matrix of an operation carries the coordinates of each cocycle.
pub fn operation_matrix_law()
    ensures { OperationMatrixLaw }
{}

/// On classes the cup product is a bilinear map.
#[tactic(auto, using(crate::proofs::LawProofs::product_law))]
pub fn product_law()
    ensures { ProductLaw }
{}

/// Operations and products commute with pull-backs.
#[tactic(auto, using(crate::proofs::LawProofs::pull_back_law))]
pub fn pull_back_law()
    ensures { PullBackLaw }
{}

/// The degrees of squares, powers and Bockstein powers.
#[tactic(auto, using(crate::proofs::LawProofs::target_law))]
pub fn target_law()
    ensures { TargetLaw }
{}

/// Induced maps: pull-backs of cocycles, and their matrices.
#[tactic(auto, using(crate::proofs::LawProofs::induced_map_law))]
pub fn induced_map_law()
    ensures { InducedMapLaw }
{}

/// Matrices of operations commute with induced matrices.
#[tactic(auto, using(crate::proofs::LawProofs::induced_matrix_law))]
pub fn induced_matrix_law()
    ensures { InducedMatrixLaw }
{}

/// The matrices of squares, powers and Bockstein powers carry the coordinates of every cocycle.
#[tactic(auto, using(crate::proofs::PowerLaws::steenrod_matrix_law))]
pub fn steenrod_matrix_law()
    ensures { SteenrodMatrixLaw }
{}
