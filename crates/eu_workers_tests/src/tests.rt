//! The tests, by what they are of.
mod askers;
mod bodies;
mod halls;
mod hands;
mod memory;
mod peers;
mod points;
mod replicas;
mod servers;
mod sessions;
mod timers;
mod trims;
mod turns;
mod victims;
mod visits;
