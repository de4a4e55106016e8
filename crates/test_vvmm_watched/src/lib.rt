//! What the bytes of a call don't show: who executes the guests' instructions, which files are fetched, in which order lines and the
//! sink are put to, and when lines that are typed are asked for. And first touches, computed by the definition.
#![tactic(auto)]

#[cfg(test)]
mod fetches;
#[cfg(test)]
mod noting;
#[cfg(test)]
mod order;
#[cfg(test)]
mod watched;
