//! What is outside the one heap agrees with the types of its names after each plain step.

ghost use Rattle.law_types_events.specs.outside.Outside.{StepsAgree, StepsFitOutside};

/// From a coherent cluster in which few events were done, each event that does a plain step and leaves a cluster in which each thing stands once, its messages handed over, leaves the cells, contents, results
/// and gifts that are outside the one heap, which a `drop` or a `release` under way owns, in agreement with the types of their names (`outside`): objects have the types that they had, and
/// mutexes and results whatever types by which those whose names were given have the types that they had. So all that stands anywhere agrees, by the typing of the one heap afterwards (`all`).
pub fn steps_fit_outside()
    ensures outside { StepsFitOutside }
    ensures all { StepsAgree }
{}
