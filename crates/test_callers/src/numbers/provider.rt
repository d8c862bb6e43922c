//! Copies of what identifies data, and providers that are asked.
mod copies;
mod providers;
