// The rows: what the whole program writes for a world and a script, and its status, over devices in memory.
//
// It has tests alone. The expected texts and statuses were worked out by hand from the language's rules, but for a few of
// blocks and primitives, which `tools/plain.py` wrote.
#![tactic(auto)]

#[cfg(test)]
mod core_text;
#[cfg(test)]
mod edits;
#[cfg(test)]
mod limits;
#[cfg(test)]
mod refusals;
#[cfg(test)]
mod scripts;
#[cfg(test)]
mod sends;
#[cfg(test)]
mod stacks;
#[cfg(test)]
mod tests;
