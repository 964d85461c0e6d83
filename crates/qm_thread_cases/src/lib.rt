//! Worked cases of nodes with threads of their own, as tests, over a value in memory that records what it was asked: nodes that wait
//! for each other within their jobs, a full history, nodes without lines, and what is printed of the turns of all. Beside them stand
//! those of what such nodes stand on: threads that take turns on one number, and work at places.
#![tactic(auto)]

#[cfg(test)]
mod cases;
#[cfg(test)]
mod clusters;
#[cfg(test)]
mod expected;
#[cfg(test)]
mod nodes;
#[cfg(test)]
mod places;
#[cfg(test)]
mod recorder;
#[cfg(test)]
mod turnstile;
