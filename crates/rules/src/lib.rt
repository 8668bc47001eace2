//! The rules that a machine goes by: its states, the steps of its threads, its calls, and what they keep.
#![tactic(auto)]

ghost use Rattle.rules.specs.Cases.{Cases};
ghost use Rattle.rules.specs.Promises.{RunsKeep, CallsKeep, CallsAnswered, CallsSettled, LoadsAccepted};

pub mod held;
pub mod outcomes;
pub mod questions;

/// Ownership, progress and swap stand after every call from the granted load on: over whole runs, and call by call.
pub fn rules_stand()
    ensures runs { RunsKeep }
    ensures calls { CallsKeep }
    ensures loads { LoadsAccepted }
    ensures answered { CallsAnswered }
    ensures settled { CallsSettled }
{}

/// What the rules say of small cases.
pub fn cases_stand()
    ensures { Cases }
{}
