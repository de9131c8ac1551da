//! Worked runs of `run_event_loop` and `serve_many`, byte by byte, over links, a reactor and a network in
//! memory; calls of stores in memory.
#![tactic(auto)]

#[cfg(test)]
mod tests;
