//! What no case file says of the system: lines that can't be typed, the parts of a report, a drive that is marked before its volume is
//! stored, and guests that take turns on the one machine, by slices of all sizes and in all orders.
#![tactic(auto)]

#[cfg(test)]
mod case;
#[cfg(test)]
mod content;
#[cfg(test)]
mod devices;
#[cfg(test)]
mod marked;
#[cfg(test)]
mod outcome;
#[cfg(test)]
mod reports;
#[cfg(test)]
mod rows;
#[cfg(test)]
mod running;
#[cfg(test)]
mod schedules;
#[cfg(test)]
mod slices;
