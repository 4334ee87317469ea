// Why a graph refuses a rule. The graph is then as it was.

#[derive(Clone, Copy, PartialEq, Eq, Debug)]
pub enum Refusal {
    // The rule may not be applied: it names what isn't there, who applies it is no subject, or a right that it uses isn't held.
    NotApplicable,
    // A graph has at most 255 vertices.
    Full,
}
