// Inputs of a book, acts and questions.
use codec::InputError;
use history::{answer_lines, answer_records};
use std::alloc::{AllocError, Global};
use std::process::Abort;
use std::test::Fail;

// p, vertex 0, acts and may take from c, vertex 1, which has right 2 to d, vertex 2.
const BOOK: [u8; 28] = [
    1, 3, 0, 0, 0, 0, 0, 0, 0, 0, 0, 0, 0, 0, 0, 0, 0, 1, 0, 1, 0, 1, 0, 1, 2, 2, 0, 0,
];

// One subject alone.
const ALONE: [u8; 20] = [1, 1, 0, 0, 0, 0, 0, 0, 0, 0, 0, 0, 0, 0, 0, 0, 0, 1, 0, 0];

fn with(heap: Global, more: &[u8]) -> Result<Vec<u8>, AllocError> {
    let mut input = Vec::from_slice(heap, &BOOK)?;
    input.extend_from_slice(more)?;
    Ok(input)
}

fn printed(rt: &impl Abort, heap: Global, input: &[u8], lines: &[u8]) -> Result<(), Fail> {
    let Ok(out) = answer_lines(heap, input) else {
        return Err(Fail::new("refused"));
    };
    assert!(rt; out.as_slice() == lines);
    Ok(())
}

fn refused(
    rt: &impl Abort,
    heap: Global,
    input: &[u8],
    number: u8,
    place: usize,
) -> Result<(), Fail> {
    match answer_lines(heap, input) {
        Err(InputError::Input(fault)) => {
            assert!(rt; fault.number() == number && fault.place() == place);
            Ok(())
        }
        _ => Err(Fail::new("no fault")),
    }
}

// Asked before and after p gives up its right to take from c; then of a subject that p makes, and again once p may take from it what it has not.
#[test]
fn each_in_its_turn(rt: HostRuntime) -> Result<(), Fail> {
    let heap = rt.alloc();
    let input = with(
        heap,
        &[
            6, 0, 2, 2, 5, 0, 0, 1, 6, 0, 2, 2, 4, 0, 1, 3, 6, 3, 0, 3, 6, 1, 2, 2, 6, 3, 2, 2,
        ],
    )?;
    printed(&rt, heap, &input, b"yes\nno\nyes\nyes\nno\n")
}

#[test]
fn faults_in_their_place(rt: HostRuntime) -> Result<(), Fail> {
    let heap = rt.alloc();
    refused(&rt, heap, &with(heap, &[9])?, 1, 28)?;
    refused(&rt, heap, &with(heap, &[6, 0, 2])?, 1, 31)?;
    refused(&rt, heap, &with(heap, &[6, 0, 2, 3])?, 2, 31)?;
    refused(
        &rt,
        heap,
        &with(heap, &[6, 0, 2, 2, 4, 0, 0, 0, 6, 0, 2, 4])?,
        2,
        39,
    )?;
    // The second act may not be done: questions are not counted.
    refused(
        &rt,
        heap,
        &with(heap, &[6, 0, 2, 2, 5, 0, 0, 1, 6, 0, 2, 2, 2, 0, 1, 2, 2])?,
        4,
        1,
    )
}

// Of 128 vertices one may ask; of 129 not, whatever follows.
#[test]
fn asked_of_128(rt: HostRuntime) -> Result<(), Fail> {
    let heap = rt.alloc();
    let mut input = Vec::from_slice(heap, &ALONE)?;
    for _ in 0..127 {
        input.extend_from_slice(&[4, 0, 0, 3])?;
    }
    input.extend_from_slice(&[6, 0, 0, 127])?;
    printed(&rt, heap, &input, b"yes\n")?;
    input.extend_from_slice(&[4, 0, 0, 3, 6])?;
    refused(&rt, heap, &input, 2, 20 + 127 * 4 + 4 + 4)
}

// A yes has a plan of one act, a no its sheet; and the lines are the same.
#[test]
fn records_beside_lines(rt: HostRuntime) -> Result<(), Fail> {
    let heap = rt.alloc();
    let input = with(heap, &[6, 0, 2, 2, 5, 0, 0, 1, 6, 0, 2, 2])?;
    let Ok(answers) = answer_records(heap, &input) else {
        return Err(Fail::new("refused"));
    };
    assert!(rt; answers.lines.as_slice() == b"yes\nno\n".as_slice());
    assert!(rt; answers.records.len() == 10 + 97);
    assert!(rt; answers.records[0] == 16 && answers.records[10] == 17);
    Ok(())
}
