// Tests of sets, and of the byte formats on examples and on damaged inputs. They stand apart from the crates that they test, so that those are proved
// once only.
#![tactic(auto)]

#[cfg(test)]
mod formats;
#[cfg(test)]
mod sets;
