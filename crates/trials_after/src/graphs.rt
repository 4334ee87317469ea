// Rules applied to changing graphs, and questions in between.
use crate::made::{READ, made, question, take_cycle};
use bits::VertexSet;
use changing::{ChangingGraph, WORDS};
use graph::Refusal;
use model::{Create, GRANT, Grant, Remove, Rule, TAKE, Take};
use sharing::Sharing;
use std::process::Abort;
use std::test::Fail;

fn take(who: u8, from: u8, right: u8, to: u8) -> Rule {
    Rule::Take(Take {
        who,
        from,
        right,
        to,
    })
}

fn grant(who: u8, into: u8, right: u8, to: u8) -> Rule {
    Rule::Grant(Grant {
        who,
        into,
        right,
        to,
    })
}

fn remove(who: u8, right: u8, to: u8) -> Rule {
    Rule::Remove(Remove { who, right, to })
}

// Does the book answer of x as the table does?
fn same_of(book: &ChangingGraph, table: &Sharing, x: u8, n: u8) -> bool {
    for y in 0..n {
        for r in 0..8 {
            let q = question(x, r, y);
            if book.can_share(q) != table.can_share(q) {
                return false;
            }
        }
    }
    true
}

// Is each answer the one that working all out anew gives? There is room for 16 vertices.
fn as_anew(book: &ChangingGraph) -> bool {
    let n = book.graph().size();
    let mut rows = [0; 256];
    let Some(table) = Sharing::of(book.graph(), &mut rows) else {
        return false;
    };
    for x in 0..n {
        if !same_of(book, &table, x, n) {
            return false;
        }
    }
    true
}

// The rule is done, and these rows are worked out anew.
fn renews(rt: &impl Abort, renewed: Result<VertexSet, Refusal>, rows: &[u8]) {
    let Ok(set) = renewed else {
        panic!(rt; "refused");
    };
    assert!(rt; set.count() == rows.len());
    for v in rows {
        assert!(rt; set.contains(*v));
    }
}

// 0 takes from 1, 1 from the object 3, 3 from 4, and 4 reads 5; 2 may grant to 1.
#[test]
fn a_chain_of_acts(rt: HostRuntime) -> Result<(), Fail> {
    let Some(graph) = made(
        6,
        &[0, 1, 2],
        &[
            [0, TAKE, 1],
            [1, TAKE, 3],
            [3, TAKE, 4],
            [4, READ, 5],
            [2, GRANT, 1],
            [2, TAKE, 4],
        ],
    ) else {
        return Err(Fail::new("no graph"));
    };
    let mut words = [7; WORDS];
    let mut book = ChangingGraph::of(graph, &mut words);
    assert!(rt; book.can_share(question(0, READ, 5)) && as_anew(&book));
    // A path from 0 to 3 was there, but not the right.
    renews(&rt, book.apply(take(0, 1, TAKE, 3)), &[0]);
    assert!(rt; as_anew(&book));
    renews(&rt, book.apply(take(0, 1, TAKE, 3)), &[]);
    renews(&rt, book.apply(remove(1, TAKE, 3)), &[0, 1]);
    assert!(rt; as_anew(&book));
    renews(&rt, book.apply(grant(2, 1, TAKE, 4)), &[0, 1]);
    assert!(rt; as_anew(&book) && book.can_share(question(1, READ, 5)));
    renews(&rt, book.apply(take(2, 4, READ, 5)), &[]);
    renews(&rt, book.apply(grant(2, 1, READ, 5)), &[]);
    assert!(rt; as_anew(&book));
    Ok(())
}

#[test]
fn a_cycle_cut_open(rt: HostRuntime) -> Result<(), Fail> {
    let graph = take_cycle().ok_or("no graph")?;
    let mut words = [7; WORDS];
    let mut book = ChangingGraph::of(graph, &mut words);
    renews(&rt, book.apply(remove(1, TAKE, 2)), &[0, 1, 2]);
    assert!(rt; book.can_share(question(0, READ, 4)) && as_anew(&book));
    renews(&rt, book.apply(remove(2, TAKE, 0)), &[2]);
    assert!(rt; !book.can_share(question(0, READ, 4)) && book.can_share(question(2, READ, 4)));
    assert!(rt; as_anew(&book));
    renews(&rt, book.apply(remove(2, TAKE, 0)), &[]);
    assert!(rt; as_anew(&book));
    Ok(())
}

// 0 makes a subject, which makes one of its own and then takes from it what 0 has granted there.
#[test]
fn what_is_made_acts(rt: HostRuntime) -> Result<(), Fail> {
    let Some(graph) = made(2, &[0], &[[0, READ, 1]]) else {
        return Err(Fail::new("no graph"));
    };
    let mut words = [7; WORDS];
    let mut book = ChangingGraph::of(graph, &mut words);
    let child = Rule::Create(Create {
        who: 0,
        subject: true,
        rights: 3,
    });
    renews(&rt, book.apply(child), &[0, 2]);
    assert!(rt; book.can_share(question(2, READ, 1)) && as_anew(&book));
    let cabinet = Rule::Create(Create {
        who: 2,
        subject: false,
        rights: 1,
    });
    renews(&rt, book.apply(cabinet), &[0, 2, 3]);
    assert!(rt; as_anew(&book) && !book.can_share(question(3, READ, 1)));
    let hidden = Rule::Create(Create {
        who: 0,
        subject: true,
        rights: 4,
    });
    renews(&rt, book.apply(hidden), &[4]);
    assert!(rt; as_anew(&book) && !book.can_share(question(4, READ, 1)));
    renews(&rt, book.apply(take(0, 2, TAKE, 3)), &[0]);
    renews(&rt, book.apply(grant(0, 2, READ, 1)), &[]);
    assert!(rt; as_anew(&book));
    Ok(())
}

// An object may do nothing, and a right that isn't held can't be taken: nothing is changed, no row is touched.
#[test]
fn refusals_change_nothing(rt: HostRuntime) -> Result<(), Fail> {
    let Some(graph) = made(3, &[0], &[[0, TAKE, 1], [1, READ, 2]]) else {
        return Err(Fail::new("no graph"));
    };
    let mut words = [7; WORDS];
    let mut book = ChangingGraph::of(graph, &mut words);
    assert!(rt; book.apply(take(0, 1, TAKE, 2)) == Err(Refusal::NotApplicable));
    assert!(rt; book.apply(remove(1, READ, 2)) == Err(Refusal::NotApplicable));
    assert!(rt; as_anew(&book) && book.can_share(question(0, READ, 2)));
    Ok(())
}

// The words of one graph serve another once it is gone, whatever is left in them.
#[test]
fn words_lent_again(rt: HostRuntime) -> Result<(), Fail> {
    let Some(first) = made(3, &[0], &[[0, TAKE, 1], [1, TAKE, 2]]) else {
        return Err(Fail::new("no graph"));
    };
    let Some(second) = made(3, &[0], &[[0, READ, 1]]) else {
        return Err(Fail::new("no graph"));
    };
    let mut words = [0; WORDS];
    let mut book = ChangingGraph::of(first, &mut words);
    renews(&rt, book.apply(take(0, 1, TAKE, 2)), &[0]);
    assert!(rt; as_anew(&book));
    let book = ChangingGraph::of(second, &mut words);
    assert!(rt; as_anew(&book) && !book.can_share(question(0, READ, 2)));
    Ok(())
}
