// Tests of the stores: each is proved, so that it is safe and ends, and then run.
#![tactic(auto)]

#[cfg(test)]
mod caches;
#[cfg(test)]
mod common;
#[cfg(test)]
mod flats;
#[cfg(test)]
mod layers;
#[cfg(test)]
mod masters;
#[cfg(test)]
mod piles;
#[cfg(test)]
mod raws;
