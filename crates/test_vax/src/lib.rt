//! Worked examples of the processor's parts: fields of its longwords, decoding, arithmetic, and the forms by which instructions are
//! done. And of runs of the simulated machine over page tables that were made by hand.
#![tactic(auto)]

#[cfg(test)]
mod arithmetic;
#[cfg(test)]
mod decoding;
#[cfg(test)]
mod entries;
#[cfg(test)]
mod forms;
#[cfg(test)]
mod known;
#[cfg(test)]
mod protection;
#[cfg(test)]
mod status;
#[cfg(test)]
mod trail;
