use codec::{InputError, replay};
use std::alloc::{AllocError, Global};
use std::process::Abort;
use std::test::Fail;

// p, vertex 0, acts and may take from c, vertex 1, which has right 2 to d, vertex 2.
const BOOK: [u8; 28] = [
    1, 3, 0, 0, 0, 0, 0, 0, 0, 0, 0, 0, 0, 0, 0, 0, 0, 1, 0, 1, 0, 1, 0, 1, 2, 2, 0, 0,
];

// The same book once p has taken right 2 to d from c.
const AFTER: [u8; 30] = [
    1, 3, 0, 0, 0, 0, 0, 0, 0, 0, 0, 0, 0, 0, 0, 0, 0, 1, 0, 2, 0, 1, 2, 2, 0, 1, 2, 2, 0, 0,
];

fn with(heap: Global, acts: &[u8]) -> Result<Vec<u8>, AllocError> {
    let mut input = Vec::from_slice(heap, &BOOK)?;
    input.extend_from_slice(acts)?;
    Ok(input)
}

// The book with one byte changed.
fn damaged(heap: Global, at: usize, byte: u8) -> Result<Vec<u8>, AllocError> {
    let mut input = Vec::new(heap);
    for (i, b) in BOOK.iter().enumerate() {
        input.push(if i == at { byte } else { *b })?;
    }
    Ok(input)
}

fn printed(rt: &impl Abort, heap: Global, input: &[u8], book: &[u8]) -> Result<(), Fail> {
    match replay(heap, input) {
        Ok(out) => {
            assert!(rt; out.as_slice() == book);
            Ok(())
        },
        Err(_) => Err(Fail::new("refused")),
    }
}

fn refused(
    rt: &impl Abort,
    heap: Global,
    input: &[u8],
    number: u8,
    place: usize,
) -> Result<(), Fail> {
    match replay(heap, input) {
        Err(InputError::Input(fault)) => {
            assert!(rt; fault.number() == number);
            assert!(rt; fault.place() == place);
            Ok(())
        }
        Err(InputError::NoMemory) => Err(Fail::new("no memory")),
        Ok(_) => Err(Fail::new("not refused")),
    }
}

#[test]
fn acts_are_done(rt: HostRuntime) -> Result<(), Fail> {
    let heap = rt.alloc();
    printed(&rt, heap, &BOOK, &BOOK)?;
    printed(&rt, heap, &with(heap, &[2, 0, 1, 2, 2])?, &AFTER)?;
    // Removing the right again, and one that isn't held.
    printed(
        &rt,
        heap,
        &with(heap, &[2, 0, 1, 2, 2, 5, 0, 2, 2, 5, 0, 7, 1])?,
        &BOOK,
    )
}

#[test]
fn acts_are_refused(rt: HostRuntime) -> Result<(), Fail> {
    let heap = rt.alloc();
    // By an object; of a right that isn't there to take; a grant with no right to grant.
    refused(&rt, heap, &with(heap, &[5, 1, 2, 2])?, 4, 0)?;
    refused(
        &rt,
        heap,
        &with(heap, &[2, 0, 1, 2, 2, 2, 0, 1, 3, 2])?,
        4,
        1,
    )?;
    refused(&rt, heap, &with(heap, &[3, 0, 1, 0, 1])?, 4, 0)?;
    // A vertex that isn't there yet, a right above 7, neither an object nor a subject, a question.
    refused(&rt, heap, &with(heap, &[2, 0, 1, 2, 3])?, 2, 32)?;
    refused(&rt, heap, &with(heap, &[5, 0, 8, 1])?, 2, 30)?;
    refused(&rt, heap, &with(heap, &[4, 0, 2, 0])?, 1, 30)?;
    refused(&rt, heap, &with(heap, &[6, 0, 2, 2])?, 1, 28)
}

#[test]
fn books_are_refused(rt: HostRuntime) -> Result<(), Fail> {
    let heap = rt.alloc();
    // The kind, no vertex, too many, too few for a wide book.
    refused(&rt, heap, &damaged(heap, 0, 2)?, 1, 0)?;
    refused(&rt, heap, &damaged(heap, 1, 0)?, 2, 1)?;
    refused(&rt, heap, &damaged(heap, 1, 129)?, 2, 1)?;
    refused(&rt, heap, &damaged(heap, 0, 7)?, 2, 1)?;
    // A subject that isn't there, in the first byte and in the last.
    refused(&rt, heap, &damaged(heap, 2, 128)?, 2, 2)?;
    refused(&rt, heap, &damaged(heap, 17, 9)?, 2, 17)?;
    // A right above 7, a target that isn't there, a count that leads past the end.
    refused(&rt, heap, &damaged(heap, 20, 8)?, 2, 20)?;
    refused(&rt, heap, &damaged(heap, 21, 3)?, 2, 21)?;
    refused(&rt, heap, &damaged(heap, 27, 1)?, 1, 28)?;
    // Two rights that don't rise: by the right, and by the target.
    refused(&rt, heap, &with_rights(heap, [1, 2, 0, 2])?, 3, 22)?;
    refused(&rt, heap, &with_rights(heap, [1, 2, 1, 2])?, 3, 23)?;
    refused(&rt, heap, &with_rights(heap, [1, 2, 1, 1])?, 3, 23)
}

// A book whose first vertex has these two rights.
fn with_rights(heap: Global, rights: [u8; 4]) -> Result<Vec<u8>, AllocError> {
    let mut input = Vec::from_slice(
        heap,
        &[1, 3, 0, 0, 0, 0, 0, 0, 0, 0, 0, 0, 0, 0, 0, 0, 0, 1, 0, 2],
    )?;
    input.extend_from_slice(&rights)?;
    Ok(input)
}

// However an input is cut, what is missing is told, unless it ends between two records.
#[test]
fn cuts_are_told(rt: HostRuntime) -> Result<(), Fail> {
    let heap = rt.alloc();
    let whole = with(heap, &[2, 0, 1, 2, 2])?;
    for n in 0..whole.len() {
        if n != 28 {
            refused(&rt, heap, &whole.as_slice()[0..n], 1, n)?;
        }
    }
    Ok(())
}

// One subject makes 254 objects; the book then begins with 7, and is read back. It can't make one more.
#[test]
fn at_most_255(rt: HostRuntime) -> Result<(), Fail> {
    let heap = rt.alloc();
    let mut input = Vec::from_slice(
        heap,
        &[1, 1, 0, 0, 0, 0, 0, 0, 0, 0, 0, 0, 0, 0, 0, 0, 0, 1, 0, 0],
    )?;
    for _ in 0..254 {
        input.extend_from_slice(&[4, 0, 0, 3])?;
    }
    let Ok(full) = replay(heap, &input) else {
        return Err(Fail::new("refused"));
    };
    assert!(rt; full.len() > 1 && full[0] == 7 && full[1] == 255);
    printed(&rt, heap, &full, &full)?;
    input.extend_from_slice(&[4, 0, 0, 3])?;
    refused(&rt, heap, &input, 5, 254)
}
