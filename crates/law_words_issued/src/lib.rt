//! Each word that stands was issued, and different objects have different words, after each event. There is no code here: a law is the contract of a function that calls other laws at most.
#![tactic(auto)]

pub mod apart;
pub mod ever;
pub mod old;
pub mod stands;
pub mod stays;

pub use apart::objects_stay_apart;
pub use ever::{
    arrivals_leave_issued, each_event_issues, events_issue_words, lent_words_stay, words_follow,
    words_stand_issued,
};
pub use old::first_words_are_old;
pub use stands::{events_keep_issued, steady_events_keep_issued};
pub use stays::issued_words_stay;
