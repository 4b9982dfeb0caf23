// More rows: what the whole program writes for worlds whose methods have blocks and primitives, over devices in memory.
//
// It has tests alone. The expected texts were written by `tools/plain.py`, an interpreter made from the language's rules.
#![tactic(auto)]

#[cfg(test)]
mod blocks;
#[cfg(test)]
mod commands;
#[cfg(test)]
mod handlers;
#[cfg(test)]
mod harness;
#[cfg(test)]
mod primitives;
