//! The tests, by what they are of, and the lines in which they tell servers, entries and cases.
mod books;
mod cases;
mod closed;
mod drawn;
mod evictions;
mod forms;
mod kept;
mod memory;
mod names;
mod plain;
mod queues;
mod refusals;
mod replies;
mod rules;
mod waves;
