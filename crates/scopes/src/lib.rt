// Scopes: what an operation that runs acts on, and which processors it reaches.
#![tactic(auto)]

mod bytes;
mod reach;
mod scope;

pub use scope::scope_of;
