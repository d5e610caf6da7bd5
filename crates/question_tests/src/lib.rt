// Tests of what `questions` says of one flow and one port by their numbers alone: no program asks for it.
#![tactic(auto)]

#[cfg(test)]
mod tests;
