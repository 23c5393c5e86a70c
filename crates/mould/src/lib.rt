// The shop's task: the planner hands the faces of a mould, each with its tolerance, to the probe.
#![tactic(auto)]

pub mod exchange;
pub mod plan;
pub mod report;
