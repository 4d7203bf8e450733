//! Clusters and programs on which laws are computed, as definitions. There is no code here.
#![tactic(auto)]
