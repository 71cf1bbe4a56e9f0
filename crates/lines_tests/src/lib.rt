// Tests of pages, lines and packed lines: the ends of each range, damaged bytes, edits of a line, and what `==` tells.
#![tactic(auto)]

#[cfg(test)]
mod edited;
#[cfg(test)]
mod packed;
#[cfg(test)]
mod ranges;
#[cfg(test)]
mod same;
