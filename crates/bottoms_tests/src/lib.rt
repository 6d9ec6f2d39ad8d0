// Examples of the two cards: which memory opens, what is held after each call, and the bytes themselves.
#![tactic(auto)]

#[cfg(test)]
mod calls;
#[cfg(test)]
mod opening;
