// Books read from bytes.
ghost use Rattle.std.specs.Prelude.{◌≡◌, ℕ, ◌+◌, ◌-◌, ◌*◌, ◌^◌, ◌<◌, ◌≤◌, T, length, take, drop, IfOk, nat_lt};
ghost use Rattle.bits.specs.Sets.{holds, in_bytes};
ghost use Rattle.codec.specs.Books.{book_at, layout_at, size_at, set_byte_at, end_of_set, subjects_at, held_at, rights_at, vertices_at, read_state, first, set_width, read_set};
ghost use Rattle.codec.specs.Reads.{Reads, Passes, filled};
ghost use Rattle.codec.specs.Writing.{book_bytes};
ghost use Rattle.graph.specs.Graphs.{state};

use crate::fault::Fault;
use crate::kind::Kind;
use crate::reader::Reader;
use bits::VertexSet;
use graph::Graph;
use model::{Held, NARROW, RIGHTS, Vertex};

// The two layouts of a book: for up to NARROW vertices, and for more.
#[derive(Clone, Copy, PartialEq, Eq, Debug)]
pub enum Layout {
    Narrow,
    Wide,
}

impl Layout {
    // How many bytes say who acts.
    fn width(self) -> usize
        ensures { result ≡ set_width self }
    {
        match self {
            Layout::Narrow => 16,
            Layout::Wide => 32,
        }
    }
}

// The book with which the input begins, and the rest of the input.
#[tactic(auto, unfolding(crate::specs::Books::book_at))]
pub fn read_book(bytes: &[u8]) -> Result<(Graph, Reader<'_>), Fault>
    ensures value { read_state result ≡ book_at bytes.now }
    ensures says { IfOk result (λ p. take p.1.at bytes.now ≡ book_bytes (state p.0)) }
    ensures rest { IfOk result (λ p. p.1.bytes.now ≡ bytes.now) }
{
    let mut reader = Reader::new(bytes);
    let layout = reader.layout()?;
    let size = reader.size(layout)?;
    let subjects = reader.subjects(size, layout.width())?;
    let mut graph = Graph::new(size, subjects).unwrap();
    reader.vertices(&mut graph)?;
    Ok((graph, reader))
}

impl<'a> Reader<'a> {
    fn layout(&mut self) -> Result<Layout, Fault>
        ensures { Reads result self.old self.new layout_at }
    {
        let at = self.at();
        match self.kind()? {
            Kind::Book => Ok(Layout::Narrow),
            Kind::WideBook => Ok(Layout::Wide),
            _ => Err(Fault::UnknownKind { at }),
        }
    }

    fn size(&mut self, layout: Layout) -> Result<u8, Fault>
        ensures { Reads result self.old self.new (λ bs at. size_at bs layout at) }
    {
        let at = self.at();
        let size = self.byte()?;
        let fits = match layout {
            Layout::Narrow => (1..=NARROW).contains(&size),
            Layout::Wide => size > NARROW,
        };
        if fits {
            Ok(size)
        } else {
            Err(Fault::OutOfRange { at })
        }
    }

    // A set of vertices below `size`, in so many bytes.
    pub fn subjects(&mut self, size: u8, width: usize) -> Result<VertexSet, Fault>
        requires { (0 < width) × (width ≤ 32) }
        ensures value { Reads (read_set result) self.old self.new (λ bs at. subjects_at bs size width at) }
        ensures made { IfOk result (λ set. (k : ℕ) → T (holds set k) → k < size) }
    {
        let set = self.set_bytes(size, width)?;
        Ok(VertexSet::from_be_bytes(set).unwrap())
    }

    // The bytes of a set that names only vertices below `size`.
    #[tactic(auto, unfolding(crate::specs::Books::end_of_set))]
    fn set_bytes(&mut self, size: u8, width: usize) -> Result<&'a [u8], Fault>
        requires { (0 < width) × (width ≤ 32) }
        ensures value { Passes result self.old self.new (λ bs at. end_of_set bs size width at) }
        ensures part { IfOk result (λ set. set.now ≡ take width (drop self.old.at self.old.bytes.now)) }
        ensures long { IfOk result (λ set. length set.now ≡ width) }
        ensures named { IfOk result (λ set. (k : ℕ) → T (in_bytes set.now k) → k < size) }
    {
        let rest = self.rest();
        for more in (0..width).rev() {
            self.set_byte(size, more)?;
        }
        Ok(&rest[..width])
    }

    // One byte of a set, which so many more follow.
    fn set_byte(&mut self, size: u8, more: usize) -> Result<(), Fault>
        requires { more < 32 }
        ensures { Passes result self.old self.new (λ bs at. set_byte_at bs size more at) }
    {
        let at = self.at();
        if fits(self.byte()?, usize::from(size).saturating_sub(8 * more)) {
            Ok(())
        } else {
            Err(Fault::OutOfRange { at })
        }
    }

    // Reads the rights of all vertices into the graph.
    fn vertices(&mut self, graph: &mut Graph) -> Result<(), Fault>
        ensures { Reads (filled result (state graph.new)) self.old self.new (λ bs at. vertices_at bs (state graph.old).size 0 (state graph.old).size at (state graph.old)) }
    {
        for p in 0..graph.size() {
            let count = self.count()?;
            self.rights(p, count, graph)?;
        }
        Ok(())
    }

    // Reads so many rights of one vertex into the graph.
    #[tactic(auto, unfolding(crate::specs::Books::rights_at))]
    fn rights(&mut self, p: Vertex, count: u16, graph: &mut Graph) -> Result<(), Fault>
        requires { p < (state graph.old).size }
        ensures size { (state graph.new).size ≡ (state graph.old).size }
        ensures value { Reads (filled result (state graph.new)) self.old self.new (λ bs at. rights_at bs (state graph.old).size p count first at (state graph.old)) }
    {
        let mut least = Held { right: 0, to: 0 };
        for _ in 0..count {
            let held = self.held(graph.size(), least)?;
            graph.give(p, held.right, held.to);
            least = Held {
                right: held.right,
                to: held.to + 1,
            };
        }
        Ok(())
    }

    // One right, none lower than `least`.
    fn held(&mut self, size: u8, least: Held) -> Result<Held, Fault>
        ensures value { Reads result self.old self.new (λ bs at. held_at bs size least at) }
        ensures made { IfOk result (λ held. (held.right < 8) × (held.to < size)) }
    {
        let at = self.at();
        let right = self.below(RIGHTS)?;
        if right < least.right {
            return Err(Fault::NotRising { at });
        }
        let to = self.below(size)?;
        if right == least.right && to < least.to {
            return Err(Fault::NotRising { at: at + 1 });
        }
        Ok(Held { right, to })
    }
}

// Has this byte only bits below `room`?
fn fits(b: u8, room: usize) -> bool
    ensures { result ≡ nat_lt b (2 ^ room) }
{
    room >= 8 || b >> room == 0
}
