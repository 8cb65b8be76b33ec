//! The tests, a module for each part.

mod gates;
mod hubs;
mod limits;
mod pools;
mod replies;
mod sessions;
mod sharing;
mod trades;
mod turns;
