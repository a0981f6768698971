//! Trials of the FLEX side: the tables of its rules, tried on the running code.
#![tactic(auto)]

#[cfg(test)]
mod accepted;
#[cfg(test)]
mod descriptions;
#[cfg(test)]
mod maps;
#[cfg(test)]
mod places;
#[cfg(test)]
mod refused;
#[cfg(test)]
mod small;
#[cfg(test)]
mod statuses;
