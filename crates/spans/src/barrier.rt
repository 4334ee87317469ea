// The three sets across which something comes to a vertex x.
use bits::VertexSet;

#[derive(Clone, Copy)]
pub struct Barrier {
    // The subjects that are connected with one that spans initially to x.
    pub inner: VertexSet,
    // Where take paths lead to from these.
    pub out: VertexSet,
    // From where take paths lead to whatever can give something to x, or to one of `inner`.
    pub into: VertexSet,
}
