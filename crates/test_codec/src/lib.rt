//! What the rows of test_calls can't say: worked examples of the definitions, and tests with
//! inputs, outputs, readers and closures of their own.
#![tactic(auto)]

#[cfg(test)]
mod closures;
#[cfg(test)]
mod errors;
#[cfg(test)]
mod inputs;
#[cfg(test)]
mod outputs;
#[cfg(test)]
mod readers;
#[cfg(test)]
mod serialized;
pub mod worked;
