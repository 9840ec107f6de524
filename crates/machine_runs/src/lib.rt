// A machine made, loaded, stepped and taken back, as tests.
#![tactic(auto)]

#[cfg(test)]
mod tests;
