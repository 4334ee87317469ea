// Tests of tables of answers, and of books that change: answers compared with those of a graph worked out anew, and inputs of acts and questions. They stand
// apart from the crates that they test, so that those are proved once only.
#![tactic(auto)]

#[cfg(test)]
mod graphs;
#[cfg(test)]
mod inputs;
#[cfg(test)]
mod made;
#[cfg(test)]
mod tables;
