// Examples of what sources, jobs and voxels answer at the edges of the rules.
#![tactic(auto)]

#[cfg(test)]
mod callers;
#[cfg(test)]
mod common;
#[cfg(test)]
mod jobs;
#[cfg(test)]
mod packed;
#[cfg(test)]
mod rasters;
#[cfg(test)]
mod voxels;
#[cfg(test)]
mod windows;
