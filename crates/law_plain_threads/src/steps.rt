//! A plain step of typed code keeps the state typed, whatever instruction it is, and no thread is stuck.

ghost use Rattle.law_plain_threads.specs.steps.Machines.{TermsKeepTypes};
ghost use Rattle.law_plain_threads.specs.steps.Steps.{ExamplesNeverStuck, NeverStuck, ProgramsNeverStuck, RunsKeepTypes, ShownStepsKeepTypes, StartsTyped, StepsKeepTypes};
ghost use Rattle.law_plain_threads.specs.steps.TypedTerms.{ProgramsStartTyped, RunsStayTyped, TypedTermsStayTyped, TypedTermsStepOn, TypedTermsUnstuck};

/// Each plain step of a code with a table, of whatever thread and instruction, leads from a typed state to a typed one (`step`): each mutex whose
/// name was given and each thread that was started have the type that they had, and each mutable reference its exact type, from where the act takes it; nothing but the
/// plain state counts in that (`shown`). The start of such a code is typed (`start`), and so is each state to which its plain run comes, under
/// whatever order (`run`). Steps of running terms keep types likewise, where each term of which something is known goes by a row of the typing of
/// acts, or is at its end (`terms`).
pub fn steps_keep_types()
    ensures step { StepsKeepTypes }
    ensures shown { ShownStepsKeepTypes }
    ensures start { StartsTyped }
    ensures run { RunsKeepTypes }
    ensures terms { TermsKeepTypes }
{}

/// Of a typed state of such a code each thread has ended, waits, or steps under every new name of the kind that it takes (`code`). So it is with the
/// terms of each typed program of whatever forms, wherever its plain run comes to under whatever order (`program`), where its places have at most
/// eight stars, which is a limit of sources.
pub fn never_stuck()
    ensures code { NeverStuck }
    ensures program { ProgramsNeverStuck }
{}

/// States of running terms are typed where a typed state of a code stands for them. A typed program of whatever forms starts typed (`start`); in a typed
/// state each step that isn't refused can be done and leaves a typed state (`goes`), as each step does that is there (`stays`); no thread of it is stuck
/// (`unstuck`). So each state to which the plain run of a typed program comes is typed (`run`).
pub fn typed_terms_step()
    ensures start { ProgramsStartTyped }
    ensures goes { TypedTermsStepOn }
    ensures stays { TypedTermsStayTyped }
    ensures unstuck { TypedTermsUnstuck }
    ensures run { RunsStayTyped }
{}

/// Programs with locks and with pairs of threads of which no thread is stuck: the law before this one applies to them.
pub fn examples_never_stuck()
    ensures { ExamplesNeverStuck }
{}
