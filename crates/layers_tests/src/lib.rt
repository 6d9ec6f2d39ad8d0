// Examples of the layers: what a pile leaves on its cards, in which order a cache writes, and what repair answers.
#![tactic(auto)]

#[cfg(test)]
mod images;
#[cfg(test)]
mod order;
#[cfg(test)]
mod repair;
