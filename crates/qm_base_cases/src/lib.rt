//! Worked cases of what the image and the program stand on, as tests: of the outside, the device and the log, and of the tables of the
//! image.
#![tactic(auto)]

#[cfg(test)]
mod outside;
#[cfg(test)]
mod tables;
