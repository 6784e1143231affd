//! Tests of what no run of the program shows, worked by hand. Of rules: the numbers of a dex file's effects, ratings that are far
//! apart, starts of battles that no hall makes, and calls that only tests make. Of battles: numbers, choices, requests, and lines of
//! events that no stored run has. What a run shows is in `data/cases`, and in the run of `psd`. It has tests alone, and no crate stands
//! on it.
#![tactic(auto)]

#[cfg(test)]
mod arena;
#[cfg(test)]
mod calc_tests;
#[cfg(test)]
mod chat_tests;
#[cfg(test)]
mod choice_tests;
#[cfg(test)]
mod dex_tests;
#[cfg(test)]
mod group_tests;
#[cfg(test)]
mod ladder_tests;
#[cfg(test)]
mod made;
#[cfg(test)]
mod members;
#[cfg(test)]
mod request_tests;
#[cfg(test)]
mod start_tests;
#[cfg(test)]
mod steps;
#[cfg(test)]
mod texts;
#[cfg(test)]
mod view_tests;
