//! Tuples of permutations, table reduction and May elements: definitions and laws.
#![tactic(auto)]

ghost use Rattle.table_reduction_law.specs.Names.{CandidateCountLaw, DegenerateTupleLaw, MayRelations, MayTermsLaw, MayTwoLaw, ReducedListsLaw, ReductionActionLaw, ReductionBoundaryLaw, ReductionRows, RowLengthsLaw, TupleActionLaw, TupleBoundaryLaw};

/// Worked rows.
pub fn reduction_rows()
    ensures { ReductionRows }
{}

/// The boundary of the boundary of a tuple is zero.
#[tactic(auto, using(crate::proofs::FormalSums::tuple_boundary_law))]
pub fn tuple_boundary_twice()
    ensures { TupleBoundaryLaw }
{}

/// Permutations act on tuples, and the boundary commutes with them.
#[tactic(auto, using(crate::proofs::FormalSums::tuple_action_law))]
pub fn tuple_action_law()
    ensures { TupleActionLaw }
{}

/// The lists of row lengths.
#[tactic(auto, using(crate::proofs::RowLengths::row_lengths_law))]
pub fn row_lengths_law()
    ensures { RowLengthsLaw }
{}

/// The lists that come from a tuple, and their number.
#[tactic(auto, using(crate::proofs::CandidateCounts::reduced_lists_law))]
pub fn reduced_lists_law()
    ensures { ReducedListsLaw }
{}

/// Degenerate tuples reduce to zero.
#[tactic(auto, using(crate::proofs::FormalSums::degenerate_tuple_law))]
pub fn degenerate_tuple_law()
    ensures { DegenerateTupleLaw }
{}

/// Table reduction commutes with permutations.
#[tactic(auto, using(crate::proofs::FormalSums::reduction_action_law))]
pub fn reduction_action_law()
    ensures { ReductionActionLaw }
{}

/// Table reduction is a chain map.
#[tactic(auto, using(crate::proofs::FormalSums::reduction_boundary_law))]
pub fn reduction_boundary_law()
    ensures { ReductionBoundaryLaw }
{}

/// The tuples and the terms of the May elements.
#[tactic(auto, using(crate::proofs::CandidateCounts::may_terms_law))]
pub fn may_terms_law()
    ensures { MayTermsLaw }
{}

/// The boundary relations of the May elements, for every p and in every degree.
#[tactic(auto, using(crate::proofs::FormalSums::may_relations))]
pub fn may_relations()
    ensures { MayRelations }
{}

/// The number of candidates of a May element.
#[tactic(auto, using(crate::proofs::CandidateCounts::candidate_count_law))]
pub fn candidate_count_law()
    ensures { CandidateCountLaw }
{}

/// The May elements at 2.
#[tactic(auto, using(crate::proofs::MayTwo::may_two_law))]
pub fn may_two_law()
    ensures { MayTwoLaw }
{}
