//! The Bockstein of a cocycle modulo a prime: definitions and laws.
#![tactic(auto)]

ghost use Rattle.bockstein_law.specs.Laws.{BocksteinRows, ClassLaw, PowerLaw};

/// The Bockstein of a cocycle is a cocycle; each lift gives the same class; on classes it is linear, and its matrix carries the
/// coordinates of each cocycle.
#[tactic(auto, using(crate::proofs::Lifts::class_law))]
pub fn class_law()
    ensures { ClassLaw }
{}

/// The Bockstein of a power is the Bockstein power, up to a coboundary; so the matrix of a Bockstein power is that of the
/// Bockstein times that of the power.
#[tactic(auto, using(crate::proofs::Powers::power_law))]
pub fn power_law()
    ensures { PowerLaw }
{}

/// Worked rows.
#[tactic(auto, using(crate::proofs::Powers::bockstein_rows))]
pub fn bockstein_rows()
    ensures { BocksteinRows }
{}
