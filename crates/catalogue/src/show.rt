// The text of what a sheet can hold, of its scope tree, and of a refusal.
pub mod faults;
pub mod frames;
pub mod indents;
pub mod kinds;
pub mod nodes;
mod numbers;
pub mod scopes;
