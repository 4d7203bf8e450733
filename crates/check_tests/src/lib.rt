//! Tests of `borrow_check`: programs that are checked. They stand in a crate of their own, since tests within a crate prove its
//! functions once more.
#![tactic(auto)]

#[cfg(test)]
mod programs;
#[cfg(test)]
mod sharing_cases;
#[cfg(test)]
mod thread_cases;
