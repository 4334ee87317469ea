// The bytes of questions.
ghost use Rattle.std.specs.Prelude.{◌≡◌, ◌<◌, ◌≤◌, length, IfOk};
ghost use Rattle.codec.specs.Questions.{question_at, narrow_book_at};
ghost use Rattle.codec.specs.Books.{read_state};
ghost use Rattle.codec.specs.Reads.{Reads};
ghost use Rattle.graph.specs.Graphs.{state};

use crate::book::read_book;
use crate::fault::Fault;
use crate::kind::Kind;
use crate::reader::Reader;
use graph::Graph;
use model::{Question, RIGHTS};

// A book about which questions may be asked, one of up to NARROW vertices, and the rest of the input.
pub fn read_narrow_book(bytes: &[u8]) -> Result<(Graph, Reader<'_>), Fault>
    ensures value { read_state result ≡ narrow_book_at bytes.now }
    ensures bound { IfOk result (λ p. (state p.0).size ≤ 128) }
    ensures rest { IfOk result (λ p. p.1.bytes.now ≡ bytes.now) }
{
    let Kind::Book = Reader::new(bytes).kind()? else {
        return Err(Fault::UnknownKind { at: 0 });
    };
    read_book(bytes)
}

impl Reader<'_> {
    // A question about a book of so many vertices.
    pub fn question(&mut self, size: u8) -> Result<Question, Fault>
        ensures value { Reads result self.old self.new (λ bs at. question_at bs size at) }
        ensures bound { IfOk result (λ _. self.old.at < self.new.at) }
    {
        let at = self.at();
        let Kind::Question = self.kind()? else {
            return Err(Fault::UnknownKind { at });
        };
        let holder = self.below(size)?;
        let right = self.below(RIGHTS)?;
        let target = self.below(size)?;
        Ok(Question {
            holder,
            right,
            target,
        })
    }
}
