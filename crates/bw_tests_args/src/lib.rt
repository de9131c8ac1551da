//! Command lines by examples: which are accepted, and what the others report.
#![tactic(auto)]

#[cfg(test)]
mod command_lines;
#[cfg(test)]
mod left_outs;
#[cfg(test)]
mod outcomes;
#[cfg(test)]
mod several;
