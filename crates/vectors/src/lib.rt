// Worked examples as tables, run on the code itself.

#![tactic(auto)]

#[cfg(test)]
mod dear;
#[cfg(test)]
mod scripts;
#[cfg(test)]
mod tests;
