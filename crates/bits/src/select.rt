// Numbers that pass a test, and what belongs to one of a set.

ghost use Rattle.std.specs.Prelude.{◌≡◌, ℕ, ◌<◌, Bool, ◌&&◌, T};
ghost use Rattle.bits.specs.Sets.{VertexSet, holds};
ghost use Rattle.model.specs.Bounded.{some_below};

use crate::set::VertexSet;

// Those of the first n numbers that pass.
pub fn those<F: Fn(u8) -> bool>(n: u8, test: F) -> VertexSet
    requires { F.IsAlwaysCallable test }
    ensures below { (v : ℕ) → T (holds result v) → v < n }
    ensures tested { (v : ℕ) → v < n → F.post test v (holds result v) }
{
    let mut found = VertexSet::empty();
    for v in 0..n {
        if test(v) {
            found.insert(v);
        }
    }
    found
}

// What belongs to one of the set, where `of` tells what belongs to a vertex.
pub fn united<F: Fn(u8) -> VertexSet>(set: &VertexSet, of: F) -> VertexSet
    requires { F.IsAlwaysCallable of }
    ensures { (rows : ℕ → ℕ → Bool) → ((v : ℕ) (s : VertexSet) → T (holds set.now v) → F.post of v s → (k : ℕ) → holds s k ≡ rows v k) → (k : ℕ) → holds result k ≡ some_below 256 (λ v. holds set.now v && rows v k) }
{
    let mut all = VertexSet::empty();
    for v in set.iter() {
        all.add(&of(v));
    }
    all
}
