//! Laws on the references of a link and what they need.

ghost use Rattle.link_uses.specs.Laws.{UsesAreTaken, NeedsAreTaken, PlanIsOfTaken};

/// Where none is refused, what is taken is the references of kept sections, in their order, each with what it
/// needs; and the plan is that of what these need, or their refusal.
#[tactic(auto, using(crate::proofs::Beside::uses_are_taken, crate::proofs::Beside::needs_are_taken, crate::proofs::Beside::plan_is_of_taken))]
pub fn uses_are_kept_beside_needs()
    ensures uses { UsesAreTaken }
    ensures needs { NeedsAreTaken }
    ensures plan { PlanIsOfTaken }
{}
