//! Decimals, patterns, providers, plural rules, symbols and tables.

mod fallback;
mod options;
mod packed;
mod paths;
mod pattern;
mod plurals;
mod provider;
mod styles;
mod symbol_bytes;
mod table_bytes;
