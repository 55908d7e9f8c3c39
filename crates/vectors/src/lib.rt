// Tests of the codes and article numbers against published examples and a second implementation by
// another method.
#![tactic(auto)]

#[cfg(test)]
mod damaged;
#[cfg(test)]
mod published;
#[cfg(test)]
mod second;
