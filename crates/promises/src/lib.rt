// What holds after every list of calls: mathematics over what each call does, for every lawful protocol and memory.
#![tactic(auto)]

ghost use Rattle.promises.specs.Promises.{EveryRunKeepsItsPromises, OneMoreStepKeepsThePromises};
ghost use Rattle.promises.specs.Refuted.{PromisesTellTrueFromFalse};
ghost use Rattle.promises.specs.Runs.{StepsLeaveNothingOpen};

// What each call does is fixed: with the same arguments on the same board it answers and leaves the same.
pub fn steps_leave_nothing_open()
    ensures { StepsLeaveNothingOpen }
{}

// There are runs: thirteen calls of two cores, written out with their answers, are one. And what is false keeps no
// promises: an altered answer, a number given or answered twice, a withdrawn request that is answered, a false look or
// tally, swapped decisions, two writers, unequal copies, a sleeper whose word is ready.
pub fn promises_tell_true_from_false()
    ensures { PromisesTellTrueFromFalse }
{}

// For every lawful protocol and every memory: whatever calls a board has had, its caches are coherent, every answer is
// that of one tagged memory which decides each request at most once, after its issue and in the order of issue, and every
// accepted request is accounted for.
pub fn runs_keep_their_promises()
    ensures { EveryRunKeepsItsPromises }
{}

// The same in the form that a call's contract carries: whatever run led to a state, one more step keeps every promise.
pub fn one_more_step_keeps_the_promises()
    ensures { OneMoreStepKeepsThePromises }
{}
