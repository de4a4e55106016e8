//! Worked examples of fields, texts and names, of access classes, of the objects in memory and over files, and of images that are
//! disassembled and assembled again.
#![tactic(auto)]

#[cfg(test)]
mod back;
#[cfg(test)]
mod class_texts;
#[cfg(test)]
mod classes;
#[cfg(test)]
mod fields;
#[cfg(test)]
mod files;
#[cfg(test)]
mod keyboards;
#[cfg(test)]
mod names;
#[cfg(test)]
mod objects;
