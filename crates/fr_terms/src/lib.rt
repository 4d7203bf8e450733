//! Terms of the language as definitions: what a tree of nodes means. There is no code here.
#![tactic(auto)]
