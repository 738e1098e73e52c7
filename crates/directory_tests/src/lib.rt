// Directories that are accepted and refused. Places were worked out by hand from the rules.
#![tactic(auto)]

#[cfg(test)]
mod accepted;
#[cfg(test)]
mod of_nodes;
#[cfg(test)]
mod order;
#[cfg(test)]
mod parts;
#[cfg(test)]
mod rows;
#[cfg(test)]
mod sections;
