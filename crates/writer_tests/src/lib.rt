// What the writer writes and refuses. Bytes and places were worked out by hand from the rules.
#![tactic(auto)]

#[cfg(test)]
mod lengths;
#[cfg(test)]
mod of_nodes;
#[cfg(test)]
mod rows;
#[cfg(test)]
mod so_far;
#[cfg(test)]
mod whole;
