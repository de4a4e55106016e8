use crate::content::Content;

/// A configuration, images, drives and a script.
#[derive(Clone, Copy)]
pub struct Case {
    pub config: &'static str,
    /// By guest the image, from its place of loading on.
    pub images: &'static [Content],
    /// Drives by their numbers, with their blocks; each other drive is empty.
    pub drives: &'static [(u8, &'static [Content])],
    pub script: &'static str,
    pub rounds: u32,
}

/// What is beside a number in a list, if it is there.
pub fn beside<T: Copy + Drop>(list: &[(u8, T)], number: u8) -> Option<T> {
    for (n, what) in list {
        if *n == number {
            return Some(*what);
        }
    }
    None
}
