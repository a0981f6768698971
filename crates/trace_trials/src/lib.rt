// Tests of traces: each is proved, so that it is safe and ends, and then run.
#![tactic(auto)]

#[cfg(test)]
mod played;
