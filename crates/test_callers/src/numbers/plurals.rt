//! Rules from a provider.
mod loading;
mod plural;
