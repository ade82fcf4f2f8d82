//! Tests of the crates at the bottom: indices, grids, descriptors, arrays, folds and routes.
#![tactic(auto)]

#[cfg(test)]
mod arrays;
#[cfg(test)]
mod descriptors;
#[cfg(test)]
mod folds;
#[cfg(test)]
mod grids;
#[cfg(test)]
mod index;
#[cfg(test)]
mod routes;
