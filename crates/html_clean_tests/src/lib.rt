//! Tests of `html_clean` and `html_clean_document`: known attacks and what comes out of them, policies, faults, and texts made by chance
//! whose cleaned texts are read again.
#![tactic(auto)]

#[cfg(test)]
mod again;
#[cfg(test)]
mod bounds;
#[cfg(test)]
mod policies;
#[cfg(test)]
mod program;
#[cfg(test)]
mod urls;
