//! Clusters and runs on which coherent memory is computed: some break no sentence, and for each sentence one breaks it. There is no code here: a law is the contract of a function with an empty body.
#![tactic(auto)]

pub mod laws;
