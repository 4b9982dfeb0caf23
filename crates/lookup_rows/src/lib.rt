// Rows of lookup: what messages find in small worlds and in large ones.
//
// It has tests alone. A world is tested for what a lookup requires before each message. The expected holders were worked
// out by hand from the Self Handbook's rules of lookup.
#![tactic(auto)]

#[cfg(test)]
mod tests;
#[cfg(test)]
mod worlds;
