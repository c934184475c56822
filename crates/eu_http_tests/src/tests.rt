//! The tests, by what they are of.
mod batch_responses;
mod batches;
mod framing;
mod instances;
mod memory;
mod pieces;
mod request_memory;
mod responses;
mod routes;
