// Tests that are many: the operation table written out by hand, names and codes, and the hand-over.
#![tactic(auto)]

#[cfg(test)]
mod handing;
#[cfg(test)]
mod names;
#[cfg(test)]
mod pictures;
#[cfg(test)]
mod table;
#[cfg(test)]
mod windows;
