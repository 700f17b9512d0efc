//! What is due by the first form of a catalogue and a script, in the words of the whole.
#![tactic(auto)]

pub mod laws;
