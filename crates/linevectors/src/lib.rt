// Tests of fields, request lines and answer lines: tables at every bound, and generated lines against
// a second implementation of the rules.
#![tactic(auto)]

#[cfg(test)]
mod answered;
#[cfg(test)]
mod bounds;
#[cfg(test)]
mod generated;
#[cfg(test)]
mod second;
