//! Lemmas of lists and options, whatever they are of. Proofs alone: nothing here runs, and every other crate may cite it.
#![tactic(auto)]
