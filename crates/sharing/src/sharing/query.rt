// Single questions.
ghost use Rattle.std.specs.Prelude.{◌≡◌, ℕ};
ghost use Rattle.model.specs.Bounded.{count_below};
ghost use Rattle.model.specs.Sharing.{can_share};
ghost use Rattle.sharing.specs.Of.{answered};

use super::Sharing;
use crate::table::row;
use bits::{row_contains, row_count};
use model::{Question, RIGHTS, Right, Vertex};
use spans::width;

impl Sharing<'_, '_> {
    // Can the holder come to have the right to the target?
    pub fn can_share(&self, question: Question) -> bool
        ensures value { result ≡ can_share (answered self.now) question.holder question.right question.target }
    {
        let Question {
            holder,
            right,
            target,
        } = question;
        let n = self.graph.size();
        if holder >= n || target >= n || right >= RIGHTS {
            return false;
        }
        row_contains(self.rows, width(n), row(right, target), usize::from(holder))
    }

    // How many can come to have right r to y?
    pub fn count(&self, r: Right, y: Vertex) -> usize
        ensures value { result ≡ count_below (answered self.now).size (λ x. can_share (answered self.now) x r y) }
    {
        let n = self.graph.size();
        if y >= n || r >= RIGHTS {
            return 0;
        }
        row_count(self.rows, width(n), row(r, y))
    }
}
